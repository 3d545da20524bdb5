// Points, directions and boxes: csx's `Vec3` and `BoundingBox` (math.rs), passed and returned by value.
// The definitions are in specs/Vectors.antt and specs/BoundingBoxes.antt, for the corners of a triangle in
// specs/steps/Corners.antt.
#![tactic(auto)]

ghost use Rattle.std.specs.Prelude.{◌≡◌, ◌+◌, ◌<◌, ◌≤◌, [], ◌∷◌, length};
ghost use Rattle.float.specs.laws.Order.{Number};
ghost use Rattle.math.specs.Vectors as Vectors;
ghost use Rattle.math.specs.BoundingBoxes as BoundingBoxes;
ghost use Rattle.math.specs.steps.Corners as Corners;

use std::ops::{Add, AddAssign, Div, Mul, Neg, Sub, SubAssign};

// A point or a direction. Two are equal if their numbers are.
#[derive(Clone, Copy, PartialEq)]
pub struct Vec3 {
    pub x: f64,
    pub y: f64,
    pub z: f64,
}

impl Vec3 {
    pub fn new(x: f64, y: f64, z: f64) -> Vec3
        ensures { result ≡ Vectors.vec x y z }
    {
        Vec3 { x, y, z }
    }

    // csx's `ZERO`.
    #[tactic(auto, unfolding(crate::specs::Vectors::zero))]
    pub fn zero() -> Vec3
        ensures { result ≡ Vectors.zero }
    {
        Vec3::new(0.0, 0.0, 0.0)
    }

    // The unit vector along axis 0, 1 or 2; csx panics at any other number.
    #[tactic(auto, unfolding(crate::specs::Vectors::unit))]
    pub fn unit(dir: usize) -> Vec3
        requires { dir ≤ 2 }
        ensures { result ≡ Vectors.unit dir }
    {
        match dir {
            0 => Vec3::new(1.0, 0.0, 0.0),
            1 => Vec3::new(0.0, 1.0, 0.0),
            _ => Vec3::new(0.0, 0.0, 1.0),
        }
    }

    // The three numbers of a list from place `i` on.
    #[tactic(auto, unfolding(crate::specs::Vectors::at))]
    pub fn at(list: &[f64], i: usize) -> Vec3
        requires { i + 2 < length list.now }
        ensures { result ≡ Vectors.at list.now i }
    {
        Vec3::new(list[i], list[i + 1], list[i + 2])
    }

    // The component along axis 0, 1 or 2; any other number counts as 2. C passes an axis as a number.
    #[tactic(auto, unfolding(crate::specs::Vectors::component))]
    pub fn component(self, axis: u64) -> f64
        ensures { result ≡ Vectors.component self axis }
    {
        match axis {
            0 => self.x,
            1 => self.y,
            _ => self.z,
        }
    }

    #[tactic(auto, unfolding(crate::specs::Vectors::dot))]
    pub fn dot(self, o: Vec3) -> f64
        ensures { result ≡ Vectors.dot self o }
    {
        self.x * o.x + self.y * o.y + self.z * o.z
    }

    #[tactic(auto, unfolding(crate::specs::Vectors::cross))]
    pub fn cross(self, o: Vec3) -> Vec3
        ensures { result ≡ Vectors.cross self o }
    {
        Vec3::new(
            self.y * o.z - self.z * o.y,
            self.z * o.x - self.x * o.z,
            self.x * o.y - self.y * o.x,
        )
    }

    #[tactic(auto, unfolding(crate::specs::Vectors::norm_sq))]
    pub fn norm_sq(self) -> f64
        ensures { result ≡ Vectors.norm_sq self }
    {
        self.dot(self)
    }

    #[tactic(auto, unfolding(crate::specs::Vectors::norm))]
    pub fn norm(self) -> f64
        ensures { result ≡ Vectors.norm self }
    {
        sqrt::root(self.norm_sq())
    }

    // The vector scaled to length 1. One of no length, or with a NaN, has no direction: it becomes the zero vector.
    #[tactic(auto, unfolding(crate::specs::Vectors::normalized))]
    pub fn normalized(self) -> Vec3
        ensures { result ≡ Vectors.normalized self }
    {
        let n = self.norm();
        if n > 0.0 { self / n } else { Vec3::zero() }
    }

    // `min` and `max` stay two, as in crate float, and so do `lowest` and `highest` below.
    #[tactic(auto, unfolding(crate::specs::Vectors::min))]
    pub fn min(self, o: Vec3) -> Vec3
        ensures { result ≡ Vectors.min self o }
    {
        Vec3::new(
            float::min(self.x, o.x),
            float::min(self.y, o.y),
            float::min(self.z, o.z),
        )
    }

    #[tactic(auto, unfolding(crate::specs::Vectors::max))]
    pub fn max(self, o: Vec3) -> Vec3
        ensures { result ≡ Vectors.max self o }
    {
        Vec3::new(
            float::max(self.x, o.x),
            float::max(self.y, o.y),
            float::max(self.z, o.z),
        )
    }

    #[tactic(auto, unfolding(crate::specs::Vectors::is_finite))]
    pub fn is_finite(self) -> bool
        ensures { result ≡ Vectors.is_finite self }
    {
        float::is_finite(self.x) & float::is_finite(self.y) & float::is_finite(self.z)
    }
}

// The vector of a chunk of a list.
impl From<[f64; 3]> for Vec3 {
    ghost from_gives = { λ p r. r ≡ Vectors.at p 0 };

    #[tactic(auto, unfolding(crate::specs::Vectors::at))]
    fn from(p: [f64; 3]) -> Vec3 {
        let [x, y, z] = p;
        Vec3::new(x, y, z)
    }
}

// The three numbers of a vector.
impl From<Vec3> for [f64; 3] {
    ghost from_gives = { λ v r. r ≡ v.x ∷ v.y ∷ v.z ∷ [] };

    fn from(v: Vec3) -> [f64; 3] {
        [v.x, v.y, v.z]
    }
}

impl Add for Vec3 {
    type Output = Vec3;

    ghost add_gives = { λ a b r. r ≡ Vectors.add a b };

    #[tactic(auto, unfolding(crate::specs::Vectors::add))]
    fn add(self, o: Vec3) -> Vec3 {
        Vec3::new(self.x + o.x, self.y + o.y, self.z + o.z)
    }
}

impl AddAssign for Vec3 {
    ghost add_assign_gives = { λ a b r. r ≡ Vectors.add a b };

    fn add_assign(&mut self, o: Vec3) {
        *self = *self + o;
    }
}

impl Sub for Vec3 {
    type Output = Vec3;

    ghost sub_gives = { λ a b r. r ≡ Vectors.sub a b };

    #[tactic(auto, unfolding(crate::specs::Vectors::sub))]
    fn sub(self, o: Vec3) -> Vec3 {
        Vec3::new(self.x - o.x, self.y - o.y, self.z - o.z)
    }
}

impl SubAssign for Vec3 {
    ghost sub_assign_gives = { λ a b r. r ≡ Vectors.sub a b };

    fn sub_assign(&mut self, o: Vec3) {
        *self = *self - o;
    }
}

impl Mul<f64> for Vec3 {
    type Output = Vec3;

    ghost mul_gives = { λ a b r. r ≡ Vectors.mul a b };

    #[tactic(auto, unfolding(crate::specs::Vectors::mul))]
    fn mul(self, s: f64) -> Vec3 {
        Vec3::new(self.x * s, self.y * s, self.z * s)
    }
}

impl Mul<Vec3> for f64 {
    type Output = Vec3;

    ghost mul_gives = { λ a b r. r ≡ Vectors.mul b a };

    fn mul(self, v: Vec3) -> Vec3 {
        v * self
    }
}

impl Div<f64> for Vec3 {
    type Output = Vec3;

    ghost div_gives = { λ a b r. r ≡ Vectors.div a b };

    #[tactic(auto, unfolding(crate::specs::Vectors::div))]
    fn div(self, s: f64) -> Vec3 {
        Vec3::new(self.x / s, self.y / s, self.z / s)
    }
}

impl Neg for Vec3 {
    type Output = Vec3;

    ghost neg_gives = { λ a r. r ≡ Vectors.neg a };

    #[tactic(auto, unfolding(crate::specs::Vectors::neg))]
    fn neg(self) -> Vec3 {
        Vec3::new(-self.x, -self.y, -self.z)
    }
}

// A closed box with its faces square to the axes. Two are equal if their corners are.
#[derive(Clone, Copy, PartialEq)]
pub struct BoundingBox {
    pub min: Vec3,
    pub max: Vec3,
}

impl BoundingBox {
    // The empty box, to which `union` and `include` add.
    pub fn empty() -> BoundingBox
        ensures { result ≡ BoundingBoxes.empty }
    {
        let inf = f64::INFINITY;
        BoundingBox {
            min: Vec3::new(inf, inf, inf),
            max: Vec3::new(-inf, -inf, -inf),
        }
    }

    #[tactic(auto, unfolding(crate::specs::BoundingBoxes::from_corners))]
    pub fn from_corners(a: Vec3, b: Vec3) -> BoundingBox
        ensures { result ≡ BoundingBoxes.from_corners a b }
    {
        BoundingBox {
            min: a.min(b),
            max: a.max(b),
        }
    }

    // The smallest box that contains points, three numbers each. One or two numbers behind the last point are none.
    pub fn from_points(coords: &[f64]) -> BoundingBox
        ensures { result ≡ BoundingBoxes.from_points (Vectors.points coords.now) }
    {
        let (points, _) = coords.as_chunks::<3>();
        points
            .iter()
            .fold(BoundingBox::empty(), |b, p| { b.include(Vec3::from(*p)) })
    }

    #[tactic(auto, unfolding(crate::specs::BoundingBoxes::is_empty))]
    pub fn is_empty(self) -> bool
        ensures { result ≡ BoundingBoxes.is_empty self }
    {
        !(self.min.x <= self.max.x) | !(self.min.y <= self.max.y) | !(self.min.z <= self.max.z)
    }

    #[tactic(auto, unfolding(crate::specs::BoundingBoxes::include))]
    pub fn include(self, p: Vec3) -> BoundingBox
        ensures { result ≡ BoundingBoxes.include self p }
    {
        BoundingBox {
            min: self.min.min(p),
            max: self.max.max(p),
        }
    }

    #[tactic(auto, unfolding(crate::specs::BoundingBoxes::union))]
    pub fn union(self, o: BoundingBox) -> BoundingBox
        ensures { result ≡ BoundingBoxes.union self o }
    {
        if self.is_empty() {
            return o;
        }
        if o.is_empty() {
            return self;
        }
        self.join(o)
    }

    // The box around two; unlike `union` it takes no box for empty.
    #[tactic(auto, unfolding(crate::specs::BoundingBoxes::join))]
    pub fn join(self, o: BoundingBox) -> BoundingBox
        ensures { result ≡ BoundingBoxes.join self o }
    {
        BoundingBox {
            min: self.min.min(o.min),
            max: self.max.max(o.max),
        }
    }

    // What the two have in common, which may be empty.
    #[tactic(auto, unfolding(crate::specs::BoundingBoxes::intersection))]
    pub fn intersection(self, o: BoundingBox) -> BoundingBox
        ensures { result ≡ BoundingBoxes.intersection self o }
    {
        BoundingBox {
            min: self.min.max(o.min),
            max: self.max.min(o.max),
        }
    }

    // Whether the two closed boxes have a point in common.
    #[tactic(auto, unfolding(crate::specs::BoundingBoxes::intersects))]
    pub fn intersects(self, o: BoundingBox) -> bool
        ensures { result ≡ BoundingBoxes.intersects self o }
    {
        ((self.min.x <= o.max.x) & (o.min.x <= self.max.x))
            & ((self.min.y <= o.max.y) & (o.min.y <= self.max.y))
            & ((self.min.z <= o.max.z) & (o.min.z <= self.max.z))
    }

    // Whether the box encloses box `o`, compared as numbers.
    #[tactic(auto, unfolding(crate::specs::BoundingBoxes::encloses))]
    pub fn encloses(self, o: BoundingBox) -> bool
        ensures { result ≡ BoundingBoxes.encloses self o }
    {
        (self.min.x <= o.min.x)
            & (self.min.y <= o.min.y)
            & (self.min.z <= o.min.z)
            & (o.max.x <= self.max.x)
            & (o.max.y <= self.max.y)
            & (o.max.z <= self.max.z)
    }

    #[tactic(auto, unfolding(crate::specs::BoundingBoxes::expanded))]
    pub fn expanded(self, d: f64) -> BoundingBox
        ensures { result ≡ BoundingBoxes.expanded self d }
    {
        let e = Vec3::new(d, d, d);
        BoundingBox {
            min: self.min - e,
            max: self.max + e,
        }
    }

    #[tactic(auto, unfolding(crate::specs::BoundingBoxes::contains))]
    pub fn contains(self, p: Vec3) -> bool
        ensures { result ≡ BoundingBoxes.contains self p }
    {
        ((p.x >= self.min.x) & (p.x <= self.max.x))
            & ((p.y >= self.min.y) & (p.y <= self.max.y))
            & ((p.z >= self.min.z) & (p.z <= self.max.z))
    }

    #[tactic(auto, unfolding(crate::specs::BoundingBoxes::size))]
    pub fn size(self) -> Vec3
        ensures { result ≡ BoundingBoxes.size self }
    {
        self.max - self.min
    }

    #[tactic(auto, unfolding(crate::specs::BoundingBoxes::center))]
    pub fn center(self) -> Vec3
        ensures { result ≡ BoundingBoxes.center self }
    {
        (self.min + self.max) * 0.5
    }

    // The eight corners: x changes from one to the next, then y, then z.
    #[tactic(auto, unfolding(crate::specs::BoundingBoxes::corners))]
    pub fn corners(self) -> [Vec3; 8]
        ensures { result ≡ BoundingBoxes.corners self }
    {
        let (a, b) = (self.min, self.max);
        [
            Vec3::new(a.x, a.y, a.z),
            Vec3::new(b.x, a.y, a.z),
            Vec3::new(a.x, b.y, a.z),
            Vec3::new(b.x, b.y, a.z),
            Vec3::new(a.x, a.y, b.z),
            Vec3::new(b.x, a.y, b.z),
            Vec3::new(a.x, b.y, b.z),
            Vec3::new(b.x, b.y, b.z),
        ]
    }

    // Along how many axes the box has an extent: 3 of a body, 2 of a sheet.
    #[tactic(auto, unfolding(crate::specs::BoundingBoxes::dimension))]
    pub fn dimension(self) -> usize
        ensures { result ≡ BoundingBoxes.dimension self }
    {
        usize::from(self.max.x > self.min.x)
            + usize::from(self.max.y > self.min.y)
            + usize::from(self.max.z > self.min.z)
    }
}

// The six edges of a box: the numbers of its lower corner, then those of its upper one.
impl From<BoundingBox> for [f64; 6] {
    ghost from_gives = { λ b r. r ≡ b.min.x ∷ b.min.y ∷ b.min.z ∷ b.max.x ∷ b.max.y ∷ b.max.z ∷ [] };

    #[inline(always)]
    fn from(b: BoundingBox) -> [f64; 6] {
        [b.min.x, b.min.y, b.min.z, b.max.x, b.max.y, b.max.z]
    }
}

// The corners of a triangle.
#[derive(Clone, Copy)]
pub struct CornerPoints {
    pub a: Vec3,
    pub b: Vec3,
    pub c: Vec3,
}

// The lowest of three, the first two of which are no NaN.
pub fn lowest(a: f64, b: f64, c: f64) -> f64
    requires { Number a × Number b }
    ensures { result ≡ Corners.lowest a b c }
{
    float::lower(float::lower(a, b), c)
}

// The highest of three, the first two of which are no NaN.
pub fn highest(a: f64, b: f64, c: f64) -> f64
    requires { Number a × Number b }
    ensures { result ≡ Corners.highest a b c }
{
    float::higher(float::higher(a, b), c)
}

impl CornerPoints {
    // The triangle's own box where its corners are finite: without the empty box it takes fewer steps.
    pub fn own_box(self) -> BoundingBox
        requires { Corners.Finite self }
        ensures { result ≡ Corners.own_box self }
    {
        BoundingBox {
            min: Vec3::new(
                lowest(self.a.x, self.b.x, self.c.x),
                lowest(self.a.y, self.b.y, self.c.y),
                lowest(self.a.z, self.b.z, self.c.z),
            ),
            max: Vec3::new(
                highest(self.a.x, self.b.x, self.c.x),
                highest(self.a.y, self.b.y, self.c.y),
                highest(self.a.z, self.b.z, self.c.z),
            ),
        }
    }
}
