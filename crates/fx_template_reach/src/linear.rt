//! The linear part of a step, and what drives it: the inputs and the rests of the next states.

use crate::transition::Transition;
use crate::units::{moved, moved_interval, unit_at};
use crate::whole::{PLACES, ceil_at, floor_at, greater, magnitude, sum, unit_vector, whole_at};
use fx_cert::{Side, affine_coef, side_at, side_rest};
use fx_num::{Dyadic, Interval, Memory, ceil_shift, floor_shift};
use std::alloc::Global;

/// How many bits the greatest size has while sizes are guessed.
const SIZE_BITS: i32 = 44;

/// How many bits more the starts may have: of a state that inputs drive by next to nothing the start is all there is.
const START_BITS: i32 = 12;

/// How many bits are spared in units of the states.
const SPARED_BITS: u8 = 10;

/// Half of a unit of a template's entries, in their products.
const HALF: i128 = 1 << (PLACES - 1);

/// Something that is added to the next states, each so many times.
#[derive(Drop)]
pub(crate) struct Drive {
    pub(crate) coefs: Vec<i128>,
    pub(crate) lo: i128,
    pub(crate) hi: i128,
}

/// From where to where something lies.
#[derive(Clone, Copy)]
pub(crate) struct Ends {
    pub(crate) lo: i128,
    pub(crate) hi: i128,
}

impl Drive {
    /// A sum with what drives a template, in whose products with the coefficients it comes so often.
    fn added_to(&self, sum: Option<Ends>, products: Option<i128>) -> Option<Ends> {
        match (sum, products) {
            (Some(sum), Some(products)) => {
                sum.plus(floor_shift(products, PLACES), self.lo, self.hi)
            }
            _ => None,
        }
    }
}

impl Ends {
    /// A sum with so many times these.
    fn added_to(self, sum: Option<Ends>, times: i128) -> Option<Ends> {
        match sum {
            Some(sum) => sum.plus(times, self.lo, self.hi),
            None => None,
        }
    }

    /// These, if both are there.
    fn of(lo: Option<i128>, hi: Option<i128>) -> Option<Ends> {
        match (lo, hi) {
            (Some(lo), Some(hi)) => Some(Ends { lo, hi }),
            _ => None,
        }
    }

    /// With so many times others.
    fn plus(self, times: i128, lo: i128, hi: i128) -> Option<Ends> {
        match (times.checked_mul(lo), times.checked_mul(hi)) {
            (Some(a), Some(b)) => Ends::of(
                self.lo.checked_add(a.min(b)),
                self.hi.checked_add(a.max(b)),
            ),
            _ => None,
        }
    }

    /// Products with entries of a template, outward. A single number goes to the nearest unit: what drives a template
    /// by that alone then does so for ever, and what fades comes to nothing.
    fn rounded(self) -> Option<Ends> {
        if self.lo == self.hi {
            let nearest = rounded(Some(self.lo));
            Ends::of(nearest, nearest)
        } else {
            Some(Ends {
                lo: floor_shift(self.lo, PLACES),
                hi: ceil_shift(self.hi, PLACES),
            })
        }
    }
}

/// A sum of products with entries of a template, outward, if it is there.
fn rounded_ends(sum: Option<Ends>) -> Option<Ends> {
    match sum {
        Some(sum) => sum.rounded(),
        None => None,
    }
}

/// A step of the states on one side, of values or of errors.
#[derive(Drop)]
pub struct Linear {
    /// How many inputs there are.
    pub inputs: usize,
    /// How many states there are.
    pub states: usize,
    /// Coefficients of the next states over all variables, state after state.
    pub coefs: Vec<Dyadic>,
    /// The rests of the next states.
    pub rests: Vec<Interval>,
    /// Where the inputs lie.
    pub spans: Vec<Interval>,
    /// How much of each state comes to each next state, with 48 binary places.
    columns: Vec<Vec<i128>>,
    drives: Vec<Drive>,
    /// Where the states start, if that is to be reached.
    starts: Vec<Ends>,
    /// Sizes are whole with so many binary places.
    pub scale: i32,
    /// How many bits fewer templates and bounds have: in units of the states coefficients of a step are longer.
    pub spared: u8,
}

/// The greatest magnitude of these, and of what came first.
fn greatest(first: Option<i32>, intervals: &[Interval]) -> Option<i32> {
    let mut top = first;
    for interval in intervals {
        top = greater(top, magnitude(*interval));
    }
    top
}

/// Whether nothing else than 0 lies in an interval.
fn is_zero(x: Interval) -> bool {
    x.lo.m == 0 && x.hi.m == 0
}

/// The magnitude of what an input of this span drives with a coefficient.
fn driven(span: Interval, coef: Dyadic) -> Option<i32> {
    let own = magnitude(Interval { lo: coef, hi: coef })?;
    Some(magnitude(span)?.saturating_add(own))
}

/// The greatest magnitude of what came first and of what the inputs drive.
fn greatest_driven(
    first: Option<i32>,
    variables: usize,
    coefs: &[Dyadic],
    spans: &[Interval],
) -> Option<i32> {
    let mut top = first;
    for (place, coef) in coefs.iter().enumerate() {
        let j = place.checked_rem(variables).unwrap_or(0);
        if let Some(span) = spans.get(j) {
            top = greater(top, driven(*span, *coef));
        }
    }
    top
}

/// The greatest magnitude of the starts, less what they may have more than drives.
fn greatest_start(starts: &[Interval]) -> Option<i32> {
    let top = greatest(None, starts)?;
    Some(top.saturating_sub(START_BITS))
}

/// With so many binary places that the greatest drive has the wanted bits, and no start too many: of an input's span a
/// small coefficient may leave next to nothing, which would drown in the rounding of each step.
fn scale_of(driven: Option<i32>, starts: &[Interval]) -> i32 {
    match greater(driven, greatest_start(starts)) {
        Some(top) => SIZE_BITS.saturating_sub(top).clamp(-200, 200),
        None => 0,
    }
}

impl Linear {
    /// Coefficient of variable `j` in next state `k`.
    pub fn coef(&self, k: usize, j: usize) -> Dyadic {
        let variables = self.inputs.saturating_add(self.states);
        let place = k.saturating_mul(variables).saturating_add(j);
        match self.coefs.get(place) {
            Some(coef) => *coef,
            None => Dyadic::zero(),
        }
    }

    /// Coefficient of state `j` in next state `k`, with 48 binary places.
    pub fn entry(&self, k: usize, j: usize) -> i128 {
        match self.columns.get(j) {
            Some(column) => column.get(k).copied().unwrap_or(0),
            None => 0,
        }
    }

    /// How much of variable `j` comes to each next state, with 48 binary places.
    fn column(&self, alloc: Global, j: usize) -> Result<Option<Vec<i128>>, Memory> {
        let mut column = Vec::new(alloc);
        for k in 0..self.states {
            match floor_at(self.coef(k, j), PLACES as i32) {
                Some(coef) => column.push(coef)?,
                None => return Ok(None),
            }
        }
        Ok(Some(column))
    }

    /// What drives the states.
    pub(crate) fn drives(&self) -> &[Drive] {
        self.drives.as_slice()
    }

    /// Adds what drives by these coefficients, if it isn't zero. Whether its numbers have few enough bits.
    fn add_drive(&mut self, coefs: Vec<i128>, span: Interval) -> Result<bool, Memory> {
        match (floor_at(span.lo, self.scale), ceil_at(span.hi, self.scale)) {
            (Some(lo), Some(hi)) => {
                // a number's own width is next to nothing, and would only be rounded up at each step
                let hi = if hi.saturating_sub(lo) <= 1 { lo } else { hi };
                self.drives.push(Drive { coefs, lo, hi })?;
                Ok(true)
            }
            _ => Ok(false),
        }
    }

    /// Adds all inputs, likewise.
    fn add_inputs(&mut self, alloc: Global) -> Result<bool, Memory> {
        for j in 0..self.inputs {
            let span = self.spans.get(j).copied().unwrap_or(Interval::zero());
            if !self.add_input(alloc, j, span)? {
                return Ok(false);
            }
        }
        Ok(true)
    }

    /// Adds an input that lies so, likewise.
    fn add_input(&mut self, alloc: Global, j: usize, span: Interval) -> Result<bool, Memory> {
        if is_zero(span) {
            return Ok(true);
        }
        match self.column(alloc, j)? {
            Some(coefs) => self.add_drive(coefs, span),
            None => Ok(false),
        }
    }

    /// Adds all rests, likewise.
    fn add_rests(&mut self, alloc: Global) -> Result<bool, Memory> {
        for k in 0..self.states {
            let rest = self.rests.get(k).copied().unwrap_or(Interval::zero());
            if !is_zero(rest) {
                let coefs = unit_vector(alloc, self.states, k, 1 << PLACES)?;
                if !self.add_drive(coefs, rest)? {
                    return Ok(false);
                }
            }
        }
        Ok(true)
    }

    /// Adds all that drives the states, likewise.
    fn add_drives(&mut self, alloc: Global) -> Result<bool, Memory> {
        if self.add_inputs(alloc)? {
            self.add_rests(alloc)
        } else {
            Ok(false)
        }
    }

    /// Adds the columns of all states, likewise.
    fn add_columns(&mut self, alloc: Global) -> Result<bool, Memory> {
        for j in 0..self.states {
            match self.column(alloc, self.inputs.saturating_add(j))? {
                Some(column) => self.columns.push(column)?,
                None => return Ok(false),
            }
        }
        Ok(true)
    }

    /// Adds where the states start, likewise.
    fn add_starts(&mut self, starts: &[Interval]) -> Result<bool, Memory> {
        for start in starts {
            let lo = floor_at(start.lo, self.scale);
            match Ends::of(lo, ceil_at(start.hi, self.scale)) {
                Some(ends) => self.starts.push(ends)?,
                None => return Ok(false),
            }
        }
        Ok(true)
    }

    /// Adds the coefficients of next state `k`.
    fn add_coefs(&mut self, t: &Transition, k: u32) -> Result<(), Memory> {
        let variables = t.inputs.saturating_add(t.states);
        for j in 0..variables {
            let coef = affine_coef(&t.lines, variables, t.next.saturating_add(k), j);
            self.coefs.push(coef)?;
        }
        Ok(())
    }

    /// Adds the coefficients and the rests of all next states.
    fn add_next(&mut self, t: &Transition, side: &Side) -> Result<(), Memory> {
        let variables = t.inputs.saturating_add(t.states);
        for k in 0..t.states {
            self.add_coefs(t, k)?;
            let rest = side_rest(side, &t.lines, variables, t.next.saturating_add(k));
            self.rests.push(rest)?;
        }
        Ok(())
    }

    /// Adds where the inputs lie.
    fn add_spans(&mut self, t: &Transition, side: &Side) -> Result<(), Memory> {
        for j in 0..t.inputs {
            self.spans.push(side_at(side, &t.lines, j))?;
        }
        Ok(())
    }

    /// Adds what whole numbers say of it. Whether they have few enough bits.
    fn add_wholes(&mut self, alloc: Global, starts: &[Interval]) -> Result<bool, Memory> {
        let variables = self.inputs.saturating_add(self.states);
        let rests = greatest(None, &self.rests);
        let driven = greatest_driven(rests, variables, &self.coefs, &self.spans);
        self.scale = scale_of(driven, starts);
        if self.add_columns(alloc)? && self.add_drives(alloc)? {
            self.add_starts(starts)
        } else {
            Ok(false)
        }
    }

    /// A step of so many inputs and states of which nothing is known yet.
    fn empty(alloc: Global, inputs: usize, states: usize) -> Linear {
        Linear {
            inputs,
            states,
            coefs: Vec::new(alloc),
            rests: Vec::new(alloc),
            spans: Vec::new(alloc),
            columns: Vec::new(alloc),
            drives: Vec::new(alloc),
            starts: Vec::new(alloc),
            scale: 0,
            spared: 0,
        }
    }

    /// By which power of two the coefficient at a place is greater in these units of the states.
    fn shift_at(&self, units: &[u32], place: usize) -> i32 {
        let variables = self.inputs.saturating_add(self.states);
        let own = unit_at(units, place.checked_div(variables).unwrap_or(0));
        let j = place.checked_rem(variables).unwrap_or(0);
        if j < self.inputs {
            own
        } else {
            own.saturating_sub(unit_at(units, j.saturating_sub(self.inputs)))
        }
    }

    /// Takes the coefficients in these units of the states. Whether they have few enough bits.
    fn measure_coefs(&mut self, units: &[u32]) -> bool {
        let mut fits = true;
        for place in 0..self.coefs.len() {
            let by = self.shift_at(units, place);
            fits = fits && move_coef(&mut self.coefs, place, by);
        }
        fits
    }

    /// Takes the rests so, likewise.
    fn measure_rests(&mut self, units: &[u32]) -> bool {
        let mut fits = true;
        for k in 0..self.rests.len() {
            fits = fits && move_rest(&mut self.rests, k, unit_at(units, k));
        }
        fits
    }

    /// Takes coefficients and rests so, likewise.
    fn measure(&mut self, units: &[u32]) -> bool {
        self.spared = if units.is_empty() { 0 } else { SPARED_BITS };
        self.measure_coefs(units) && self.measure_rests(units)
    }

    /// Fills in what a transition does, from these starts. Whether its numbers have few enough bits.
    fn fill(
        &mut self,
        alloc: Global,
        t: &Transition,
        side: &Side,
        starts: &[Interval],
        units: &[u32],
    ) -> Result<bool, Memory> {
        self.add_next(t, side)?;
        self.add_spans(t, side)?;
        if self.measure(units) {
            self.add_wholes(alloc, starts)
        } else {
            Ok(false)
        }
    }

    /// The step of a transition in these units of the states, from these starts in them, if its numbers have few enough
    /// bits. Where no starts are given nothing has to reach them, and where no units are all are 1.
    pub fn of(
        alloc: Global,
        t: &Transition,
        side: &Side,
        starts: &[Interval],
        units: &[u32],
    ) -> Result<Option<Linear>, Memory> {
        let mut linear = Linear::empty(alloc, t.inputs as usize, t.states as usize);
        if linear.fill(alloc, t, side, starts, units)? {
            Ok(Some(linear))
        } else {
            Ok(None)
        }
    }

    /// Entry `j` of a template's image: what the template is of the next states, as a template of the states.
    fn image_entry(&self, template: &[i128], j: usize) -> Option<i128> {
        match self.columns.get(j) {
            Some(column) => rounded(products(template, column)),
            None => None,
        }
    }

    /// A template's image.
    pub fn image(&self, alloc: Global, template: &[i128]) -> Result<Option<Vec<i128>>, Memory> {
        let mut image = Vec::new(alloc);
        for j in 0..self.states {
            match self.image_entry(template, j) {
                Some(entry) => image.push(entry)?,
                None => return Ok(None),
            }
        }
        Ok(Some(image))
    }

    /// Entry `j` of a template's image, if it is one of a filter that stands: 2^28 has left any.
    fn small_entry(&self, template: &[i128], j: usize) -> Option<i128> {
        match self.image_entry(template, j) {
            Some(entry) => if entry.unsigned_abs() >> (PLACES + 28) == 0 {
                Some(entry)
            } else {
                None
            },
            None => None,
        }
    }

    /// Puts the image of the template from a place on behind the others. Whether its entries are small enough.
    pub fn push_image(&self, templates: &mut Vec<i128>, from: usize) -> Result<bool, Memory> {
        for j in 0..self.states {
            let template = templates.as_slice().get(from..).unwrap_or(&[]);
            match self.small_entry(template, j) {
                Some(entry) => templates.push(entry)?,
                None => return Ok(false),
            }
        }
        Ok(true)
    }

    /// What drives a template.
    pub(crate) fn drive(&self, template: &[i128]) -> Option<Ends> {
        let mut sum = Some(Ends { lo: 0, hi: 0 });
        for drive in &self.drives {
            sum = drive.added_to(sum, products(template, &drive.coefs));
        }
        rounded_ends(sum)
    }

    /// Where the states start, state by state; none where nothing has to reach that.
    pub(crate) fn starts(&self) -> &[Ends] {
        self.starts.as_slice()
    }

    /// Where a template starts.
    pub(crate) fn start_of(&self, template: &[i128]) -> Option<Ends> {
        let mut sum = Some(Ends { lo: 0, hi: 0 });
        for k in 0..self.starts.len() {
            sum = self.starts[k].added_to(sum, whole_at(template, k));
        }
        rounded_ends(sum)
    }
}

/// A product with an entry of a template to the nearest unit, if it is there.
fn rounded(total: Option<i128>) -> Option<i128> {
    match sum(total, Some(HALF)) {
        Some(total) => Some(floor_shift(total, PLACES)),
        None => None,
    }
}

/// With the product of an entry and a coefficient.
fn plus_product(total: Option<i128>, r: i128, c: i128) -> Option<i128> {
    if r == 0 || c == 0 {
        total
    } else {
        sum(total, r.checked_mul(c))
    }
}

/// The sum of the products of a template and coefficients.
fn products(template: &[i128], coefs: &[i128]) -> Option<i128> {
    let mut total = Some(0);
    for (r, c) in template.iter().zip(coefs) {
        total = plus_product(total, *r, *c);
    }
    total
}

/// Takes a coefficient times `2^by`. Whether it has few enough bits then.
fn move_coef(coefs: &mut Vec<Dyadic>, place: usize, by: i32) -> bool {
    match coefs.get_mut(place) {
        Some(slot) => move_dyadic(slot, by),
        None => false,
    }
}

/// Takes a dyadic times `2^by`, likewise.
fn move_dyadic(slot: &mut Dyadic, by: i32) -> bool {
    match moved(*slot, by) {
        Some(own) => {
            *slot = own;
            true
        }
        None => false,
    }
}

/// Takes a rest times `2^by`, likewise.
fn move_rest(rests: &mut Vec<Interval>, k: usize, by: i32) -> bool {
    match rests.get_mut(k) {
        Some(slot) => move_interval(slot, by),
        None => false,
    }
}

/// Takes an interval times `2^by`, likewise.
fn move_interval(slot: &mut Interval, by: i32) -> bool {
    match moved_interval(*slot, by) {
        Some(own) => {
            *slot = own;
            true
        }
        None => false,
    }
}
