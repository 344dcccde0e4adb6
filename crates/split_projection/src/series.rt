// Sums of sines of even multiples, by Clenshaw's recurrence.

/// A complex number.
#[derive(Clone, Copy)]
pub(crate) struct Complex {
    pub real: f64,
    pub imaginary: f64,
}

impl Complex {
    /// The product with another.
    pub(crate) fn times(self, other: Complex) -> Complex {
        Complex {
            real: self.real * other.real - self.imaginary * other.imaginary,
            imaginary: self.real * other.imaginary + self.imaginary * other.real,
        }
    }
}

/// The sum of each coefficient times the sine of its multiple of an angle, the first at the angle itself, by the sine and the
/// cosine of the angle.
pub(crate) fn sine_sum(coefficients: &[f64; 6], sine: f64, cosine: f64) -> f64 {
    let (mut last, mut before) = (0.0, 0.0);
    for coefficient in coefficients.iter().rev() {
        (last, before) = (2.0 * cosine * last - before + *coefficient, last);
    }
    last * sine
}

/// The same sum of a complex angle.
pub(crate) fn complex_sine_sum(coefficients: &[f64; 6], sine: Complex, cosine: Complex) -> Complex {
    let twice = Complex {
        real: 2.0 * cosine.real,
        imaginary: 2.0 * cosine.imaginary,
    };
    let zero = Complex {
        real: 0.0,
        imaginary: 0.0,
    };
    let (mut last, mut before) = (zero, zero);
    for coefficient in coefficients.iter().rev() {
        let product = twice.times(last);
        let next = Complex {
            real: product.real - before.real + *coefficient,
            imaginary: product.imaginary - before.imaginary,
        };
        (last, before) = (next, last);
    }
    last.times(sine)
}
