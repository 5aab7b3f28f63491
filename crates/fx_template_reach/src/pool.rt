//! Templates that are proposed, with shares, and how far each is guessed to reach.

use crate::templates::Templates;
use crate::whole::{PLACES, floor_at, put, whole_at};
use fx_cert::Share;
use fx_num::{Dyadic, Memory, bits, floor_shift, lowest};
use std::alloc::Global;

/// How many bits a coefficient has, counted from what its chain begins with.
const COEFFICIENT_BITS: i64 = 34;

/// All templates of one kind, the unit templates first.
#[derive(Drop)]
pub struct Pool {
    /// The templates with 48 binary places, and how far each is guessed to reach.
    pub templates: Templates,
    /// Reaches are whole with so many binary places.
    pub scale: i32,
    /// How many bits fewer coefficients and bounds have.
    pub spared: u8,
    /// Coefficients, template after template.
    coefs: Vec<Dyadic>,
    rooms: Vec<i128>,
    shares: Vec<Vec<Share>>,
}

impl Pool {
    /// None yet.
    pub fn new(alloc: Global, states: usize, scale: i32, spared: u8) -> Pool {
        Pool {
            templates: Templates::new(alloc, states),
            scale,
            spared,
            coefs: Vec::new(alloc),
            rooms: Vec::new(alloc),
            shares: Vec::new(alloc),
        }
    }

    /// Coefficient `j` of template `i`.
    pub fn coef(&self, i: usize, j: usize) -> Dyadic {
        let place = i.saturating_mul(self.templates.states).saturating_add(j);
        match self.coefs.get(place) {
            Some(coef) => *coef,
            None => Dyadic::zero(),
        }
    }

    /// How much wider its bound may get.
    pub fn room(&self, i: usize) -> i128 {
        whole_at(&self.rooms, i)
    }

    /// What template `i` costs: how wide its bound gets.
    pub fn cost(&self, i: usize) -> i128 {
        self.templates.width(i).saturating_add(self.room(i))
    }

    /// Gives template `i` another room.
    pub fn put_room(&mut self, i: usize, room: i128) {
        put(&mut self.rooms, i, room);
    }

    /// Gives template `i` what its bound came to in the place of a guess.
    pub fn put_reach(&mut self, i: usize, (lo, hi): (i128, i128)) {
        put(&mut self.templates.lo, i, lo);
        put(&mut self.templates.hi, i, hi);
        put(&mut self.rooms, i, 0);
    }

    /// The shares of template `i`.
    pub fn shares(&self, i: usize) -> &[Share] {
        match self.shares.get(i) {
            Some(shares) => shares.as_slice(),
            None => &[],
        }
    }

    /// Gives template `i` these shares.
    pub fn put_shares(&mut self, i: usize, shares: Vec<Share>) {
        if let Some(slot) = self.shares.get_mut(i) {
            *slot = shares;
        }
    }

    /// Gives template `i` one share.
    pub fn put_share(&mut self, alloc: Global, i: usize, share: Share) -> Result<(), Memory> {
        let mut shares = Vec::new(alloc);
        shares.push(share)?;
        self.put_shares(i, shares);
        Ok(())
    }

    /// Puts a coefficient behind the others.
    fn push_coef(&mut self, coef: Dyadic) -> Result<(), Memory> {
        self.coefs.push(coef)?;
        self.templates
            .entries
            .push(floor_at(coef, PLACES as i32).unwrap_or(0))?;
        Ok(())
    }

    /// Puts a reach behind the others, and gives the template's number.
    fn push_reach(
        &mut self,
        alloc: Global,
        reach: (i128, i128),
        room: i128,
    ) -> Result<usize, Memory> {
        let i = self.templates.len();
        self.templates.push_reach(reach)?;
        self.rooms.push(room)?;
        self.shares.push(Vec::new(alloc))?;
        Ok(i)
    }

    /// Adds the unit template of state `i`.
    pub fn push_unit(
        &mut self,
        alloc: Global,
        i: usize,
        reach: (i128, i128),
        room: i128,
    ) -> Result<usize, Memory> {
        for j in 0..self.templates.states {
            let m = if i == j { 1 } else { 0 };
            self.push_coef(Dyadic { m, e: 0 })?;
        }
        self.push_reach(alloc, reach, room)
    }

    /// Adds a template as it stands.
    pub fn push_known(
        &mut self,
        alloc: Global,
        coefs: &[Dyadic],
        reach: (i128, i128),
    ) -> Result<usize, Memory> {
        for j in 0..self.templates.states {
            self.push_coef(coefs.get(j).copied().unwrap_or(Dyadic::zero()))?;
        }
        self.push_reach(alloc, reach, 0)
    }

    /// Adds a template whose coefficients are rounded to as many places as the width of its chain's first template
    /// calls for.
    pub fn push_template(
        &mut self,
        alloc: Global,
        template: &[i128],
        widest: i128,
        reach: (i128, i128),
        room: i128,
    ) -> Result<usize, Memory> {
        for j in 0..self.templates.states {
            let entry = whole_at(template, j);
            let places = coef_places(self.templates.width(j), widest, self.spared);
            self.push_coef(rounded(entry, places))?;
        }
        self.push_reach(alloc, reach, room)
    }
}

/// How many binary places the coefficient of a state has in a template.
fn coef_places(state_width: i128, widest: i128, spared: u8) -> u32 {
    if state_width == 0 {
        return 0;
    }
    let own = i64::from(bits(state_width.unsigned_abs()));
    let first = i64::from(bits(widest.max(1).unsigned_abs()));
    COEFFICIENT_BITS
        .saturating_sub(i64::from(spared))
        .saturating_add(own)
        .saturating_sub(first)
        .clamp(0, 56) as u32
}

/// An entry of 48 binary places, to the nearest of so many.
fn rounded(entry: i128, places: u32) -> Dyadic {
    if places >= PLACES {
        return lowest(entry, PLACES);
    }
    let cut = floor_shift(entry, PLACES.saturating_sub(places).saturating_sub(1));
    lowest(floor_shift(cut.saturating_add(1), 1), places)
}
