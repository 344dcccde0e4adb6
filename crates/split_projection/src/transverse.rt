// The transverse Mercator projection of the ellipsoid, in radii of the sphere whose meridians are as long as the ellipsoid's.

use crate::ellipsoid::{FROM_ELLIPSOID, FROM_SPHERE, TO_ELLIPSOID, TO_SPHERE};
use crate::series::{Complex, complex_sine_sum, sine_sum};

// A position in the projection of a sphere of radius 1, its northing as real part and its easting as imaginary part, and the
// sine and the cosine of twice that number.
#[derive(Clone, Copy)]
struct Transverse {
    position: Complex,
    sine: Complex,
    cosine: Complex,
}

// A position, by the sine and the cosine of twice its northing, and by the hyperbolic ones of twice its easting.
fn with_twice(position: Complex, north: (f64, f64), east: (f64, f64)) -> Transverse {
    let (sine, cosine) = north;
    let (hyperbolic_sine, hyperbolic_cosine) = east;
    Transverse {
        position,
        sine: Complex {
            real: sine * hyperbolic_cosine,
            imaginary: cosine * hyperbolic_sine,
        },
        cosine: Complex {
            real: cosine * hyperbolic_cosine,
            imaginary: -(sine * hyperbolic_sine),
        },
    }
}

// A position with a sum of sines of it added.
fn moved_by(on: Transverse, coefficients: &[f64; 6]) -> Complex {
    let more = complex_sine_sum(coefficients, on.sine, on.cosine);
    Complex {
        real: on.position.real + more.real,
        imaginary: on.position.imaginary + more.imaginary,
    }
}

// The length of a way that goes so far one way and so far at a right angle to it. Neither is great enough for its square to be
// none, nor are both so small.
fn length(one: f64, other: f64) -> f64 {
    (one * one + other * other).sqrt()
}

// The latitude on the Gaussian sphere of a latitude on the ellipsoid, in radians.
fn latitude_on_sphere(latitude: f64) -> f64 {
    let (sine, cosine) = (2.0 * latitude).sin_cos();
    latitude + sine_sum(&TO_SPHERE, sine, cosine)
}

// The position of a latitude on the sphere that lies so far east of the central meridian, in radians. Of twice its northing and
// its easting, the sines and the cosines follow from those of the place by the theorems of twice an angle.
fn position_on_sphere(latitude: f64, east: f64) -> Transverse {
    let north = latitude.sin();
    let outward = latitude.cos() * east.cos();
    let reciprocal = 1.0 / length(north, outward);
    let tangent = east.sin() * latitude.cos() * reciprocal;
    let twice_square = 2.0 * reciprocal * reciprocal;
    let along = outward * twice_square;
    let (sine, cosine) = (north * along, outward * along - 1.0);
    let (hyperbolic_sine, hyperbolic_cosine) = (tangent * (2.0 * reciprocal), twice_square - 1.0);
    let position = Complex {
        real: north.atan2(outward),
        imaginary: tangent.asinh(),
    };
    with_twice(
        position,
        (sine, cosine),
        (hyperbolic_sine, hyperbolic_cosine),
    )
}

/// The position of a latitude on the ellipsoid that lies so far east of the central meridian, both in radians: the northing is
/// the real part, and the easting the imaginary one.
pub(crate) fn position_of(latitude: f64, east: f64) -> Complex {
    let on_sphere = position_on_sphere(latitude_on_sphere(latitude), east);
    moved_by(on_sphere, &TO_ELLIPSOID)
}

// The latitude on the ellipsoid of a latitude on the Gaussian sphere, in radians.
fn latitude_on_ellipsoid(latitude: f64) -> f64 {
    let (sine, cosine) = (2.0 * latitude).sin_cos();
    latitude + sine_sum(&FROM_SPHERE, sine, cosine)
}

// The position on the sphere of one on the ellipsoid.
fn position_from_ellipsoid(position: Complex) -> Complex {
    let twice_east = 2.0 * position.imaginary;
    let on_ellipsoid = with_twice(
        position,
        (2.0 * position.real).sin_cos(),
        (twice_east.sinh(), twice_east.cosh()),
    );
    moved_by(on_ellipsoid, &FROM_ELLIPSOID)
}

/// How far east of the central meridian a position lies, and its latitude on the ellipsoid, both in radians: what `position_of`
/// answers, back again.
pub(crate) fn place_of_position(position: Complex) -> (f64, f64) {
    let on_sphere = position_from_ellipsoid(position);
    let (north, along) = on_sphere.real.sin_cos();
    let outward = on_sphere.imaginary.sinh();
    let latitude = north.atan2(length(outward, along));
    (outward.atan2(along), latitude_on_ellipsoid(latitude))
}
