// The point of a triangle that is nearest to a point: csx's `closest_on_triangle`. The definitions are in
// specs/Closest.antt.
ghost use Rattle.std.specs.Prelude.{◌≡◌};
ghost use Rattle.scan.specs.Closest as Closest;

use math::{CornerPoints, Vec3};

// The dot products of the edges ab and ac with the ways from a, b and c to the point.
#[derive(Clone, Copy)]
struct Products {
    d1: f64,
    d2: f64,
    d3: f64,
    d4: f64,
    d5: f64,
    d6: f64,
}

// Those products.
#[tactic(auto, unfolding(crate::specs::Closest::products_of))]
fn products_of(p: Vec3, t: CornerPoints) -> Products
    ensures { result ≡ Closest.products_of p t.a t.b t.c }
{
    let ab = t.b - t.a;
    let ac = t.c - t.a;
    let ap = p - t.a;
    let bp = p - t.b;
    let cp = p - t.c;
    Products {
        d1: ab.dot(ap),
        d2: ac.dot(ap),
        d3: ab.dot(bp),
        d4: ac.dot(bp),
        d5: ab.dot(cp),
        d6: ac.dot(cp),
    }
}

impl Products {
    // csx's va, vb and vc: the corners' weights where the nearest point lies inside, not yet divided by their sum.
    #[tactic(auto, unfolding(crate::specs::Closest::va))]
    fn va(self) -> f64
        ensures { result ≡ Closest.va self }
    {
        self.d3 * self.d6 - self.d5 * self.d4
    }

    #[tactic(auto, unfolding(crate::specs::Closest::vb))]
    fn vb(self) -> f64
        ensures { result ≡ Closest.vb self }
    {
        self.d5 * self.d2 - self.d1 * self.d6
    }

    #[tactic(auto, unfolding(crate::specs::Closest::vc))]
    fn vc(self) -> f64
        ensures { result ≡ Closest.vc self }
    {
        self.d1 * self.d4 - self.d3 * self.d2
    }
}

// The point at t times the way d from a.
#[tactic(auto, unfolding(crate::specs::Closest::along))]
fn along(a: Vec3, d: Vec3, t: f64) -> Vec3
    ensures { result ≡ Closest.along a d t }
{
    a + d * t
}

// The nearest point where it lies inside the triangle.
#[tactic(auto, unfolding(crate::specs::Closest::inner))]
fn inner(t: CornerPoints, d: Products) -> Vec3
    ensures { result ≡ Closest.inner t.a t.b t.c d }
{
    let va = d.va();
    let vb = d.vb();
    let vc = d.vc();
    let denom = va + vb + vc;
    if denom == 0.0 {
        return t.a;
    }
    along(t.a, t.b - t.a, vb / denom) + (t.c - t.a) * (vc / denom)
}

// The nearest point: a corner, on an edge, or inside, the first whose test holds.
#[tactic(auto, unfolding(crate::specs::Closest::nearest))]
fn nearest(t: CornerPoints, d: Products) -> Vec3
    ensures { result ≡ Closest.nearest t.a t.b t.c d }
{
    if (d.d1 <= 0.0) & (d.d2 <= 0.0) {
        return t.a;
    }
    if (d.d3 >= 0.0) & (d.d4 <= d.d3) {
        return t.b;
    }
    let vc = d.vc();
    if (vc <= 0.0) & (d.d1 >= 0.0) & (d.d3 <= 0.0) {
        return along(t.a, t.b - t.a, d.d1 / (d.d1 - d.d3));
    }
    if (d.d6 >= 0.0) & (d.d5 <= d.d6) {
        return t.c;
    }
    let vb = d.vb();
    if (vb <= 0.0) & (d.d2 >= 0.0) & (d.d6 <= 0.0) {
        return along(t.a, t.c - t.a, d.d2 / (d.d2 - d.d6));
    }
    let va = d.va();
    let from_b = d.d4 - d.d3;
    let from_c = d.d5 - d.d6;
    if (va <= 0.0) & (from_b >= 0.0) & (from_c >= 0.0) {
        return along(t.b, t.c - t.b, from_b / (from_b + from_c));
    }
    inner(t, d)
}

// The point of the triangle that is nearest to p.
#[tactic(auto, unfolding(crate::specs::Closest::closest_on_triangle))]
pub fn closest_on_triangle(p: Vec3, t: CornerPoints) -> Vec3
    ensures { result ≡ Closest.closest_on_triangle p t.a t.b t.c }
{
    nearest(t, products_of(p, t))
}
