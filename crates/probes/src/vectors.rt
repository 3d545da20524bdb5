// csx's `Vec3` and `BoundingBox` in two calls, one on vectors and one on boxes, which take any numbers. They are proved
// safe, and the driver compares what they write.
ghost use Rattle.std.specs.Prelude.{◌+◌, ◌<◌, length};

use math::{BoundingBox, Vec3};

// Writes the numbers of vectors one after another, of as many as have room.
fn put(vectors: &[Vec3], out: &mut [f64]) {
    for (places, v) in out.chunks_exact_mut(3).zip(vectors) {
        places.copy_from_slice(&<[f64; 3]>::from(*v));
    }
}

// What is compared of two vectors and a number.
fn of_vectors(a: Vec3, b: Vec3, s: f64) -> [Vec3; 10] {
    let mut sum = a;
    sum += b;
    let mut difference = a;
    difference -= b;
    [
        Vec3::zero(),
        Vec3::unit(0),
        Vec3::unit(1),
        Vec3::unit(2),
        -a,
        a / s,
        s * a,
        a.normalized(),
        sum,
        difference,
    ]
}

// Of the two vectors and the number that the first seven numbers are. Returns 1, or 0 if there are fewer.
#[unsafe(no_mangle)]
pub extern "C" fn probe_vectors(given: &[f64], out: &mut [f64]) -> u64 {
    if given.len() < 7 {
        return 0;
    }
    put(
        &of_vectors(Vec3::at(given, 0), Vec3::at(given, 3), given[6]),
        out,
    );
    1
}

// The box with these numbers as they are, ordered or not.
fn box_at(given: &[f64], i: usize) -> BoundingBox
    requires { i + 5 < length given.now }
{
    BoundingBox {
        min: Vec3::at(given, i),
        max: Vec3::at(given, i + 3),
    }
}

// Of the two boxes that the first twelve numbers are, and of the points behind them. Returns 1, or 0 if there are fewer
// numbers or fewer places than are written.
#[unsafe(no_mangle)]
pub extern "C" fn probe_boxes(given: &[f64], out: &mut [f64]) -> u64 {
    if given.len() < 12 {
        return 0;
    }
    if out.len() < 39 {
        return 0;
    }
    let a = box_at(given, 0);
    let b = box_at(given, 6);
    let common = a.intersection(b);
    let around = BoundingBox::from_points(&given[12..]);
    let answers = Vec3::new(
        f64::from(u8::from(a.intersects(b))),
        f64::from(u8::from(a == b)),
        f64::from(a.dimension() as u8),
    );
    put(
        &[common.min, common.max, around.min, around.max, answers],
        out,
    );
    put(&a.corners(), &mut out[15..]);
    1
}
