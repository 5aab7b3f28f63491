//! Complex numbers in floating point, and square matrices of them.

use crate::float::size_of;
use fx_num::Memory;
use std::alloc::Global;

/// A complex number.
#[derive(Clone, Copy)]
pub struct Complex {
    /// The real part.
    pub re: f64,
    /// The imaginary part.
    pub im: f64,
}

impl Complex {
    /// A real number.
    pub fn real(re: f64) -> Complex {
        Complex { re, im: 0.0 }
    }

    /// The sum.
    pub fn plus(self, other: Complex) -> Complex {
        Complex {
            re: self.re + other.re,
            im: self.im + other.im,
        }
    }

    /// The difference.
    pub fn minus(self, other: Complex) -> Complex {
        Complex {
            re: self.re - other.re,
            im: self.im - other.im,
        }
    }

    /// The product.
    pub fn times(self, other: Complex) -> Complex {
        Complex {
            re: self.re * other.re - self.im * other.im,
            im: self.re * other.im + self.im * other.re,
        }
    }

    /// `factor` times the number.
    pub fn scaled(self, factor: f64) -> Complex {
        Complex {
            re: self.re * factor,
            im: self.im * factor,
        }
    }

    /// The number on the other side of the real axis.
    pub fn conjugate(self) -> Complex {
        Complex {
            re: self.re,
            im: -self.im,
        }
    }

    /// The quotient. Of a divisor that is 0 it is no number.
    pub fn over(self, other: Complex) -> Complex {
        let size = other.re * other.re + other.im * other.im;
        self.times(other.conjugate()).scaled(1.0 / size)
    }

    /// How far from 0.
    pub fn size(self) -> f64 {
        (self.re * self.re + self.im * self.im).sqrt()
    }

    /// About how far from 0, without a root.
    pub fn length(self) -> f64 {
        size_of(self.re) + size_of(self.im)
    }

    /// The root that isn't on the left.
    pub fn root(self) -> Complex {
        let size = self.size();
        let re = ((size + size_of(self.re)) * 0.5).sqrt();
        if !(re > 0.0) {
            return Complex { re: 0.0, im: 0.0 };
        }
        let im = self.im / (re * 2.0);
        if self.re >= 0.0 {
            Complex { re, im }
        } else if im < 0.0 {
            Complex { re: -im, im: -re }
        } else {
            Complex { re: im, im: re }
        }
    }
}

/// A square matrix.
#[derive(Drop)]
pub struct Matrix {
    /// How many rows there are.
    pub size: usize,
    entries: Vec<Complex>,
}

impl Matrix {
    /// The matrix of zeros.
    pub fn zero(alloc: Global, size: usize) -> Result<Matrix, Memory> {
        let count = size.saturating_mul(size);
        Ok(Matrix {
            size,
            entries: vec![in alloc; Complex { re: 0.0, im: 0.0 }; count]?,
        })
    }

    /// A copy.
    pub fn copy(&self, alloc: Global) -> Result<Matrix, Memory> {
        Ok(Matrix {
            size: self.size,
            entries: Vec::from_slice(alloc, &self.entries)?,
        })
    }

    /// The entry of a row and a column.
    pub fn at(&self, row: usize, column: usize) -> Complex {
        let place = row.saturating_mul(self.size).saturating_add(column);
        match self.entries.get(place) {
            Some(entry) => *entry,
            None => Complex { re: 0.0, im: 0.0 },
        }
    }

    /// Puts an entry.
    pub fn put(&mut self, row: usize, column: usize, entry: Complex) {
        let place = row.saturating_mul(self.size).saturating_add(column);
        if let Some(slot) = self.entries.get_mut(place) {
            *slot = entry;
        }
    }

    /// Takes so many times one row, from a column on, from another.
    pub fn take_row(&mut self, row: usize, other: usize, factor: Complex, from: usize) {
        for column in from..self.size {
            let entry = self
                .at(row, column)
                .minus(factor.times(self.at(other, column)));
            self.put(row, column, entry);
        }
    }

    /// Adds so many times one column to another.
    pub fn add_column(&mut self, column: usize, other: usize, factor: Complex) {
        for row in 0..self.size {
            let entry = self.at(row, column).plus(factor.times(self.at(row, other)));
            self.put(row, column, entry);
        }
    }

    /// Exchanges two rows.
    pub fn swap_rows(&mut self, a: usize, b: usize) {
        for column in 0..self.size {
            let entry = self.at(a, column);
            self.put(a, column, self.at(b, column));
            self.put(b, column, entry);
        }
    }

    /// Exchanges two columns.
    pub fn swap_columns(&mut self, a: usize, b: usize) {
        for row in 0..self.size {
            let entry = self.at(row, a);
            self.put(row, a, self.at(row, b));
            self.put(row, b, entry);
        }
    }

    /// The row from `from` on whose entry in a column is the greatest.
    pub fn pivot(&self, column: usize, from: usize) -> usize {
        let mut best = from;
        for row in from..self.size {
            if self.at(row, column).length() > self.at(best, column).length() {
                best = row;
            }
        }
        best
    }
}
