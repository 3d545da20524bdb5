// What the builder measures of a node's items: the axis on which they are split, and the node's box. The
// definitions are in specs/steps/Extent.antt.
ghost use Rattle.std.specs.Prelude.{◌≡◌, ◌<◌, length, take, drop};
ghost use Rattle.keys.specs.Sorting.{sorted};
ghost use Rattle.math.specs.BoundingBoxes as BoundingBoxes;
ghost use Rattle.mesh.specs.steps.Axes as Axes;
ghost use Rattle.mesh.specs.steps.Items as Items;
ghost use Rattle.builder.specs.Builder as Builder;
ghost use Rattle.bvh.specs.steps.Extent as Extents;

use builder::{Pivot, Split};
use math::{BoundingBox, Vec3};
use mesh::{AcceptedMesh, Axis};

// Which end of a box on an axis. An end and an axis are no struct: `joined_end` goes through the axes at one end and
// `middle_rank` through the ends on one axis, so each would make one anew at every edge.
#[derive(Clone, Copy)]
enum End {
    Lower,
    Upper,
}

impl End {
    // The smaller of two at the lower end, the larger at the upper one.
    #[tactic(auto, unfolding(crate::specs::steps::Extent::pick))]
    fn pick(self, a: f64, b: f64) -> f64
        ensures { result ≡ Extents.pick (Extents.is_upper self) a b }
    {
        match self {
            End::Lower => float::min(a, b),
            End::Upper => float::max(a, b),
        }
    }

    // This edge `v` of a box around centres, and one centre more; one that is not finite does not count. Of a finite
    // one a single comparison tells what `pick` does, whatever `v` is.
    #[tactic(auto, using(crate::specs::laws::ExtentLaws::compared_once))]
    fn with(self, v: f64, c: f64) -> f64
        ensures { result ≡ Extents.end_with (Extents.is_upper self) v c }
    {
        if !float::is_finite(c) {
            return v;
        }
        match self {
            End::Lower => if v <= c { v } else { c },
            End::Upper => if c <= v { v } else { c },
        }
    }

    // This edge of a box on an axis. Not by `component`: it takes a number, as C passes it, and any above 1 as axis 2.
    #[tactic(auto, unfolding(crate::specs::steps::Extent::edge, math::specs::Vectors::component))]
    fn edge(self, axis: Axis, b: BoundingBox) -> f64
        ensures { result ≡ Extents.edge (Extents.is_upper self) (Axes.place axis) b }
    {
        let corner = match self {
            End::Lower => b.min,
            End::Upper => b.max,
        };
        match axis {
            Axis::X => corner.x,
            Axis::Y => corner.y,
            Axis::Z => corner.z,
        }
    }
}

// A box around centres, and one centre more.
#[tactic(auto, unfolding(crate::specs::steps::Extent::with_center))]
fn with_center(b: BoundingBox, c: Vec3) -> BoundingBox
    ensures { result ≡ Extents.with_center b c }
{
    BoundingBox {
        min: Vec3::new(
            End::Lower.with(b.min.x, c.x),
            End::Lower.with(b.min.y, c.y),
            End::Lower.with(b.min.z, c.z),
        ),
        max: Vec3::new(
            End::Upper.with(b.max.x, c.x),
            End::Upper.with(b.max.y, c.y),
            End::Upper.with(b.max.z, c.z),
        ),
    }
}

// The axis of greatest size, the last on a tie.
#[tactic(auto, unfolding(crate::specs::steps::Extent::widest_axis, crate::specs::steps::Extent::wider_axis, math::specs::Vectors::component))]
fn widest_axis(size: Vec3) -> Axis
    ensures { Axes.place result ≡ Extents.widest_axis size }
{
    let x = float::order_key(size.x);
    let y = float::order_key(size.y);
    let z = float::order_key(size.z);
    if x <= y {
        return if y <= z { Axis::Z } else { Axis::Y };
    }
    if x <= z { Axis::Z } else { Axis::X }
}

// The rank half way between the lowest and the highest centre on an axis; 0 where it would be that of a
// NaN.
fn middle_rank(centers: BoundingBox, axis: Axis) -> Pivot {
    let lo = End::Lower.edge(axis, centers);
    let hi = End::Upper.edge(axis, centers);
    let key = float::order_key((lo + hi) * 0.5);
    Pivot {
        rank: if key < u64::MAX { key } else { 0 },
    }
}

// The lowest-numbered item so far whose edge is zero, or item `t` if its edge `e` is zero and it does not come later.
#[tactic(auto, unfolding(crate::specs::steps::Extent::earlier))]
fn earlier(found: Option<u32>, t: u32, e: f64) -> Option<u32>
    ensures { result ≡ Extents.earlier found t e }
{
    if (e == 0.0) & found.is_none_or(|first| t <= first) {
        Some(t)
    } else {
        found
    }
}

// Whether two floats are equal as numbers and not the same: zeros of unlike sign.
#[tactic(auto, unfolding(crate::specs::steps::Extent::unlike))]
fn unlike(a: f64, b: f64) -> bool
    ensures { result ≡ Extents.unlike a b }
{
    (a == b) & (float::order_key(a) != float::order_key(b))
}

// The items of a node, in whatever order they stand: triangles of the mesh.
#[derive(Clone, Copy)]
pub struct Node<'m, 'a, 'i> {
    pub mesh: &'m AcceptedMesh<'a>,
    pub items: &'i [u32],
    pub ghost given: { Items.Items mesh.now items.now },
}

impl<'m, 'a, 'i> Node<'m, 'a, 'i> {
    // On each axis the lowest and the highest finite centre of the items.
    fn centers(self) -> BoundingBox
        ensures { result ≡ Extents.with_centers self.entry.mesh.now BoundingBoxes.empty self.entry.items.now }
    {
        let mut b = BoundingBox::empty();
        for t in self.items {
            b = with_center(b, self.mesh.own_box(*t).center());
        }
        b
    }

    // How the items are split.
    pub fn split(self) -> Split
        ensures { Axes.place result.axis ≡ Builder.split_axis self.entry.mesh.now (sorted self.entry.items.now) }
    {
        let centers = self.centers();
        let axis = widest_axis(centers.size());
        Split {
            axis,
            pivot: middle_rank(centers, axis),
        }
    }

    // This edge on an axis of the lowest-numbered item in whose own box it is zero; 0 if there is none.
    fn zero_edge(self, end: End, axis: Axis) -> f64
        ensures { result ≡ Extents.zero_edge (Extents.own_edge self.entry.mesh.now (Extents.is_upper end) (Axes.place axis)) (sorted self.entry.items.now) }
    {
        let mut found = None;
        for t in self.items {
            found = earlier(found, *t, end.edge(axis, self.mesh.own_box(*t)));
        }
        // No `map_or`: its closure would need clauses of its own, longer than the two arms.
        match found {
            Some(t) => end.edge(axis, self.mesh.own_box(t)),
            None => 0.0,
        }
    }

    // An edge of the box of the items from those of their halves: only of zeros of unlike sign it depends on the
    // items.
    #[tactic(auto, unfolding(crate::specs::steps::Extent::joined_edge))]
    fn joined_edge(self, end: End, axis: Axis, a: f64, b: f64) -> f64
        ensures { result ≡ Extents.joined_edge self.entry.mesh.now self.entry.items.now (Extents.is_upper end) (Axes.place axis) a b }
    {
        if unlike(a, b) {
            return self.zero_edge(end, axis);
        }
        end.pick(a, b)
    }

    // The three edges at this end.
    #[tactic(auto, unfolding(crate::specs::steps::Extent::joined_end))]
    fn joined_end(self, end: End, a: Vec3, b: Vec3) -> Vec3
        ensures { result ≡ Extents.joined_end self.entry.mesh.now self.entry.items.now (Extents.is_upper end) a b }
    {
        Vec3::new(
            self.joined_edge(end, Axis::X, a.x, b.x),
            self.joined_edge(end, Axis::Y, a.y, b.y),
            self.joined_edge(end, Axis::Z, a.z, b.z),
        )
    }

    // The box of an inner node from those of its halves: the first `half` items, and the others.
    pub fn inner_box(self, half: usize, left: BoundingBox, right: BoundingBox) -> BoundingBox
        requires { (0 < half) × (half < length self.items.now) × (left ≡ Builder.node_box self.mesh.now (sorted (take half self.items.now))) × (right ≡ Builder.node_box self.mesh.now (sorted (drop half self.items.now))) }
        ensures { result ≡ Builder.node_box self.entry.mesh.now (sorted self.entry.items.now) }
    {
        let mesh = self.mesh;
        lent::floats(mesh.coords);
        BoundingBox {
            min: self.joined_end(End::Lower, left.min, right.min),
            max: self.joined_end(End::Upper, left.max, right.max),
        }
    }
}
