//! Poles of a step, and templates that each pole's plane is bounded by.
//!
//! A step takes the left eigenvector v of a pair of poles to so many times itself, so that the templates
//! `Re(e^(i p) v)` form a plane that a step turns and shrinks, whatever else the filter has. A few of them bound all of
//! the plane: a turned one lies between two neighbours, which costs a part of what the step shrinks. A real pole takes
//! one.

use crate::complex::{Complex, Matrix};
use crate::eigen::{eigenvalues, eigenvector, entry};
use crate::float::{
    HALF_TURN, angle_of, count_to_float, greater_of, power_of_two, size_of, to_float, turn_by,
    whole_below, whole_near,
};
use crate::linear::{Drive, Ends, Linear};
use crate::templates::Templates;
use crate::whole::{PLACES, both};
use fx_num::Memory;
use std::alloc::Global;
use std::num::saturating_f64_to_usize;

/// The least size of a pole that takes templates.
const LEAST: f64 = 0.5;

/// The most directions of a plane.
const DIRECTIONS: usize = 256;

/// In so many bins what drives a plane is collected by its direction.
const BINS: usize = 512;

/// How many steps are looked at, at most.
const STEPS: usize = 16384;

/// How far a plane reaches at least, where the states are about as wide as 1: what nothing drives has templates, too.
const LEAST_REACH: f64 = 1.0e-9;

/// A pole, of a pair the one above the axis, with its left eigenvector over the states.
#[derive(Drop)]
pub struct Pole {
    value: Complex,
    size: f64,
    angle: f64,
    vector: Vec<Complex>,
    /// What drives its plane.
    drives: Driven,
    /// Where its plane starts, from the middle of what drives it on.
    start: Started,
}

/// A point of a plane with what lies so near it, and for how many steps it is followed: then it comes back nearer.
#[derive(Clone, Copy)]
struct Started {
    point: Complex,
    radius: f64,
    steps: usize,
}

impl Started {
    /// With where a state starts, which comes to the plane by this entry of the vector.
    fn plus(self, x: Complex, start: Ends) -> Started {
        let lo = to_float(start.lo);
        let hi = to_float(start.hi);
        Started {
            point: self.point.plus(x.scaled((lo + hi) * 0.5)),
            radius: self.radius + x.size() * (hi - lo) * 0.5,
            steps: self.steps,
        }
    }
}

/// The matrix whose vectors are the left eigenvectors, in coordinates in which each state is about as wide.
fn matrix_of(alloc: Global, linear: &Linear, widths: &[f64]) -> Result<Matrix, Memory> {
    let mut m = Matrix::zero(alloc, linear.states)?;
    for place in 0..linear.states.saturating_mul(linear.states) {
        let k = place.checked_div(linear.states).unwrap_or(0);
        let j = place.checked_rem(linear.states).unwrap_or(0);
        let ratio = float_at(widths, j) / float_at(widths, k);
        let entry = to_float(linear.entry(k, j)) * power_of_two(-(PLACES as i32));
        m.put(j, k, Complex::real(entry * ratio));
    }
    Ok(m)
}

/// An entry of a vector of sizes.
fn float_at(vector: &[f64], i: usize) -> f64 {
    match vector.get(i) {
        Some(x) => *x,
        None => 1.0,
    }
}

/// How wide the states are, where none is 0.
fn floats_of(alloc: Global, widths: &[i128]) -> Result<Vec<f64>, Memory> {
    let mut floats = Vec::new(alloc);
    for width in widths {
        floats.push(greater_of(to_float(*width), 1.0))?;
    }
    Ok(floats)
}

/// Whether a value is another's neighbour: two poles that coincide have one vector.
fn is_near(value: Complex, poles: &[Pole]) -> bool {
    for pole in poles {
        if value.minus(pole.value).length() < 1.0e-9 {
            return true;
        }
    }
    false
}

/// Takes a vector in the states' own coordinates.
fn unscale(vector: &mut Vec<Complex>, widths: &[f64]) {
    for k in 0..vector.len() {
        vector[k] = vector[k].scaled(1.0 / float_at(widths, k));
    }
}

/// A step in coordinates in which each state is about as wide.
#[derive(Clone, Copy)]
struct Coordinates<'a> {
    linear: &'a Linear,
    matrix: &'a Matrix,
    widths: &'a [f64],
}

impl Coordinates<'_> {
    /// The left eigenvector over the states of this value.
    fn vector_at(self, alloc: Global, value: Complex) -> Result<Vec<Complex>, Memory> {
        let mut vector = eigenvector(alloc, self.matrix, value)?;
        unscale(&mut vector, self.widths);
        Ok(vector)
    }

    /// Adds the pole of this value.
    fn push_pole(self, alloc: Global, value: Complex, poles: &mut Vec<Pole>) -> Result<(), Memory> {
        let vector = self.vector_at(alloc, value)?;
        let drives = collect_drives(alloc, self.linear, value, &vector)?;
        let angle = if value.im > 1.0e-10 {
            angle_of(value)
        } else {
            0.0
        };
        let start = start_of(self.linear, &vector, drives.middle, steps_of(angle));
        poles.push(Pole {
            value,
            size: value.size(),
            angle,
            vector,
            drives,
            start,
        })?;
        Ok(())
    }

    /// Adds the pole of a value, if it fades slowly and isn't there.
    fn add_pole(self, alloc: Global, value: Complex, poles: &mut Vec<Pole>) -> Result<(), Memory> {
        let size = value.size();
        if value.im >= -1.0e-10 && size >= LEAST && size < 1.0 && !is_near(value, poles) {
            self.push_pole(alloc, value, poles)
        } else {
            Ok(())
        }
    }

    /// The poles that fade slowly.
    fn poles(self, alloc: Global) -> Result<Vec<Pole>, Memory> {
        let values = eigenvalues(alloc, self.matrix)?;
        let mut poles = Vec::new(alloc);
        for value in &values {
            self.add_pole(alloc, *value, &mut poles)?;
        }
        Ok(poles)
    }
}

/// The poles that fade slowly, of a step whose states are so wide.
pub fn poles_of(alloc: Global, linear: &Linear, widths: &[i128]) -> Result<Vec<Pole>, Memory> {
    let widths = floats_of(alloc, widths)?;
    let matrix = matrix_of(alloc, linear, &widths)?;
    let coordinates = Coordinates {
        linear,
        matrix: &matrix,
        widths: &widths,
    };
    coordinates.poles(alloc)
}

impl Pole {
    /// What a step costs a plane of so many directions, over what a circle would.
    fn cost(&self, count: usize) -> f64 {
        let step = HALF_TURN / count_to_float(count);
        let turns = i32::try_from(whole_below(self.angle / step)).unwrap_or(0);
        let rest = self.angle - f64::from(turns) * step;
        turn_by(size_of(step / 2.0 - rest)).re / turn_by(step / 2.0).re
    }

    /// From where to where the plane reaches in a direction, by what drives it and from its start on.
    fn reach(&self, turn: Complex) -> (f64, f64) {
        let half = greater_of(self.drives.reach(turn), LEAST_REACH);
        let mut most = half;
        let mut least = -half;
        let mut now = turn.times(self.start.point);
        let mut radius = self.start.radius;
        for _step in 0..self.start.steps {
            most = greater_of(most, now.re + radius);
            least = -greater_of(-least, radius - now.re);
            now = now.times(self.value);
            radius = radius * self.size;
        }
        let middle = turn.times(self.drives.middle).re;
        (middle + least, middle + most)
    }

    /// How many directions the plane needs, so that a step loses at most such a part of what it shrinks by.
    fn directions(&self, part: f64) -> Option<usize> {
        if self.angle == 0.0 {
            return Some(1);
        }
        for count in 2..DIRECTIONS {
            if (self.cost(count) - 1.0) * self.size <= part * (1.0 - self.size) {
                return Some(count);
            }
        }
        None
    }
}

/// What drives a plane, collected by its direction, and the middle of what it comes to.
#[derive(Drop)]
struct Driven {
    bins: Vec<Complex>,
    middle: Complex,
}

impl Driven {
    /// Adds what comes to a plane, which is as good the other way round.
    fn add(&mut self, x: Complex) {
        let x = if x.im < 0.0 { x.scaled(-1.0) } else { x };
        let length = x.length();
        if length > 0.0 {
            let place = saturating_f64_to_usize((1.0 - x.re / length) * 0.5 * 511.0);
            if let Some(bin) = self.bins.get_mut(place) {
                *bin = bin.plus(x);
            }
        }
    }

    /// Adds all that comes of a drive over the times.
    fn add_times(&mut self, pole: Complex, drive: Complex) {
        let mut now = drive;
        let least = drive.length() * 1.0e-9;
        for _step in 0..STEPS {
            if now.length() > least {
                self.add(now);
                now = now.times(pole);
            }
        }
    }

    /// Adds all that comes of what drives this eigenvector's plane.
    fn add_drive(&mut self, vector: &[Complex], pole: Complex, drive: &Drive) {
        let own = driven_by(vector, &drive.coefs);
        let lo = to_float(drive.lo);
        let hi = to_float(drive.hi);
        self.middle = self.middle.plus(own.scaled((lo + hi) * 0.5));
        self.add_times(pole, own.scaled((hi - lo) * 0.5));
    }

    /// How far to each side of its middle the plane reaches in a direction.
    fn reach(&self, turn: Complex) -> f64 {
        let mut total = 0.0;
        for bin in &self.bins {
            total = total + size_of(turn.re * bin.re - turn.im * bin.im);
        }
        total
    }
}

/// How much of a drive comes to a vector.
fn driven_by(vector: &[Complex], coefs: &[i128]) -> Complex {
    let unit = power_of_two(-(PLACES as i32));
    let mut total = Complex::real(0.0);
    for k in 0..coefs.len() {
        total = total.plus(entry(vector, k).scaled(to_float(coefs[k]) * unit));
    }
    total
}

/// How many steps a plane turns until it has gone round.
fn steps_of(angle: f64) -> usize {
    if angle > 0.0 {
        saturating_f64_to_usize(HALF_TURN * 2.0 / angle)
            .min(STEPS)
            .saturating_add(2)
    } else {
        2
    }
}

/// Where the plane of this eigenvector starts, if that is to be reached.
fn start_of(linear: &Linear, vector: &[Complex], middle: Complex, steps: usize) -> Started {
    let starts = linear.starts();
    let mut started = Started {
        point: middle.scaled(-1.0),
        radius: 0.0,
        steps: if starts.is_empty() { 0 } else { steps },
    };
    for k in 0..starts.len() {
        started = started.plus(entry(vector, k), starts[k]);
    }
    started
}

/// All that drives the plane of a pole with this eigenvector.
fn collect_drives(
    alloc: Global,
    linear: &Linear,
    pole: Complex,
    vector: &[Complex],
) -> Result<Driven, Memory> {
    let mut all = Driven {
        bins: vec![in alloc; Complex { re: 0.0, im: 0.0 }; BINS]?,
        middle: Complex::real(0.0),
    };
    for drive in linear.drives() {
        all.add_drive(vector, pole, drive);
    }
    let left = Complex::real(1.0).minus(pole);
    all.middle = all.middle.over(left);
    Ok(all)
}

/// The power of two by which a template is taken so that it reaches about as far as the widest state: else shares and
/// coefficients get long.
fn scale_of(widest: f64, width: f64) -> f64 {
    let mut scale = 1.0;
    for _step in 0..512 {
        if width * scale * 2.0 <= widest * 1.5 {
            scale = scale * 2.0;
        } else if width * scale * 0.5 >= widest * 0.75 {
            scale = scale * 0.5;
        }
    }
    scale
}

/// Puts the entries of a template of a plane behind the others. False where they have too many bits.
fn push_entries(
    templates: &mut Templates,
    vector: &[Complex],
    turn: Complex,
    scale: f64,
) -> Result<bool, Memory> {
    for k in 0..templates.states {
        let own = turn.times(entry(vector, k)).re;
        match whole_near(own * scale, PLACES as i32) {
            Some(x) => templates.entries.push(x)?,
            None => return Ok(false),
        }
    }
    Ok(true)
}

/// Puts how far it reaches behind the others, likewise.
fn push_reach(templates: &mut Templates, least: f64, most: f64) -> Result<bool, Memory> {
    match both(whole_near(least, 0), whole_near(most, 0)) {
        Some((lo, hi)) => {
            templates.push_reach((lo.saturating_sub(1), hi.saturating_add(1)))?;
            Ok(true)
        }
        None => Ok(false),
    }
}

/// Puts a template of a plane behind the others, likewise.
fn push_direction(
    templates: &mut Templates,
    pole: &Pole,
    turn: Complex,
    widest: f64,
) -> Result<bool, Memory> {
    let (least, most) = pole.reach(turn);
    let scale = scale_of(widest, most - least);
    if push_entries(templates, &pole.vector, turn, scale)? {
        push_reach(templates, least * scale, most * scale)
    } else {
        Ok(false)
    }
}

/// Puts so many templates of a pole behind the others, likewise.
fn push_plane(
    templates: &mut Templates,
    pole: &Pole,
    count: usize,
    widest: f64,
) -> Result<bool, Memory> {
    let step = turn_by(HALF_TURN / count_to_float(count));
    let mut turn = Complex::real(1.0);
    for _direction in 0..count {
        if !push_direction(templates, pole, turn, widest)? {
            return Ok(false);
        }
        turn = turn.times(step);
    }
    Ok(true)
}

/// Puts the templates of all poles behind the others. False where a plane would need too many, or numbers have too many
/// bits.
fn push_planes(
    templates: &mut Templates,
    poles: &[Pole],
    part: f64,
    widest: f64,
) -> Result<bool, Memory> {
    for pole in poles {
        let is_there = match pole.directions(part) {
            Some(count) => push_plane(templates, pole, count, widest)?,
            None => false,
        };
        if !is_there {
            return Ok(false);
        }
    }
    Ok(true)
}

/// The templates over so many states of all poles, so many that a step loses at most such a part of what it shrinks by,
/// each about as wide as the widest state; none where a plane would need too many.
pub fn pole_templates(
    alloc: Global,
    states: usize,
    poles: &[Pole],
    part: f64,
    widest: i128,
) -> Result<Option<Templates>, Memory> {
    let mut templates = Templates::new(alloc, states);
    if push_planes(&mut templates, poles, part, to_float(widest))? {
        Ok(Some(templates))
    } else {
        Ok(None)
    }
}
