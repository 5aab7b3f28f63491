//! Templates of a step of the ladder: the poles' planes, and chains that are closed on them.
//!
//! A chain is followed only until what is left of it costs, on all templates that are there, at most its reach and its
//! room: then an exchange takes the end apart. What a later chain closes on are the templates of the earlier ones too.

use crate::build::{free_chains, once, put_exchanged, taken};
use crate::rungs::Rung;
use fx_cert::Share;
use fx_num::{Memory, TEMPLATE_LIMIT};
use fx_simplex::{Budget, ScaledTemplates, costs_at_most};
use fx_template_reach::{Ahead, Chain, Linear, PLACES, Pool, Templates, room_part, unit_cost};
use std::alloc::Global;

/// How many templates a certificate has at most, as lists count.
const TEMPLATES: usize = TEMPLATE_LIMIT as usize;

/// How many templates those of poles may be, with the unit templates.
const MOST_OF_POLES: usize = 400;

/// How long a chain may get.
const LONGEST: usize = 1024;

/// A template whose image is taken apart by an exchange.
#[derive(Drop)]
struct End {
    image: Vec<i128>,
    template: usize,
}

/// A pool while it is built, with the templates that wait for an exchange.
#[derive(Drop)]
pub struct Building<'a> {
    alloc: Global,
    linear: &'a Linear,
    rung: Rung,
    /// How many times a chain goes on from one of its templates to the next.
    stride: usize,
    pool: Pool,
    ends: Vec<End>,
    /// What the unit templates cost, with their room.
    costs: Vec<i128>,
    /// How many times the room each unit template has: two for one that follows another.
    factors: Vec<i128>,
    /// How many templates still have a place.
    left: usize,
}

/// Whether a cost is at most so much, if it is there.
fn is_at_most(cost: Option<i128>, limit: i128) -> bool {
    match cost {
        Some(cost) => cost <= limit,
        None => false,
    }
}

impl<'a> Building<'a> {
    /// No template yet.
    fn new(alloc: Global, linear: &'a Linear, rung: Rung, stride: usize) -> Building<'a> {
        Building {
            alloc,
            linear,
            rung,
            stride,
            pool: Pool::new(alloc, linear.states, linear.scale, linear.spared),
            ends: Vec::new(alloc),
            costs: Vec::new(alloc),
            factors: Vec::new(alloc),
            left: 0,
        }
    }

    /// The room of a chain that begins so wide.
    fn room(&self, width: i128, factor: i128) -> i128 {
        room_part(width, self.rung.room.saturating_mul(factor), 64)
    }

    /// Adds the unit templates.
    fn put_units(&mut self, chains: &[Chain]) -> Result<(), Memory> {
        for chain in chains {
            if let Some(k) = chain.state {
                self.put_unit(&chain.ahead, k)?;
            }
        }
        Ok(())
    }

    /// Adds the unit template of a state.
    fn put_unit(&mut self, ahead: &Ahead, k: usize) -> Result<(), Memory> {
        let width = ahead.templates.width(0);
        let room = self.room(width, 1);
        self.pool
            .push_unit(self.alloc, k, ahead.templates.reach(0), room)?;
        self.costs.push(width.saturating_add(room))?;
        self.factors.push(1)?;
        Ok(())
    }

    /// Adds the templates of poles.
    fn put_poles(&mut self, planes: &Templates) -> Result<(), Memory> {
        for i in 0..planes.len() {
            self.put_plane(planes, i)?;
        }
        Ok(())
    }

    /// Adds one of them, which waits for an exchange of its image.
    fn put_plane(&mut self, planes: &Templates, i: usize) -> Result<(), Memory> {
        let own = planes.template(i);
        let width = planes.width(i);
        let room = room_part(width, self.rung.part, 100);
        let template = self
            .pool
            .push_template(self.alloc, own, width, planes.reach(i), room)?;
        if let Some(image) = self.linear.image(self.alloc, own)? {
            self.ends.push(End { image, template })?;
        }
        Ok(())
    }

    /// Whether a chain can be closed at a time, on all templates that are there.
    fn closes(
        &self,
        scaled: &ScaledTemplates<'_>,
        ahead: &Ahead,
        time: usize,
        factor: i128,
        budget: &mut Budget,
    ) -> Result<bool, Memory> {
        let first = ahead.templates.width(0);
        let limit = ahead
            .templates
            .width(time)
            .saturating_add(self.room(first, factor))
            .saturating_add(first >> 30);
        let template = ahead.templates.template(time);
        if is_at_most(unit_cost(template, &self.costs), limit) {
            Ok(true)
        } else if self.pool.templates.len() == self.linear.states {
            Ok(false)
        } else {
            costs_at_most(self.alloc, scaled, template, limit, budget)
        }
    }

    /// Whether the image of unit template `k` may take so much of state `j`: next to nothing, or another that follows
    /// none.
    fn may_take(&self, k: usize, j: usize, entry: i128) -> bool {
        let size = room_part(
            self.pool.templates.width(j),
            entry.saturating_abs() >> 8,
            1 << (PLACES - 8),
        );
        let follows = self.factors.get(j).copied().unwrap_or(1) != 1;
        size <= self.pool.templates.width(k) >> 20 || !(j == k || follows)
    }

    /// Whether the image of a state's unit template takes, but for next to nothing, only other states that follow none.
    fn takes_others(&self, k: usize, image: &[i128]) -> bool {
        for j in 0..image.len() {
            if !self.may_take(k, j, image[j]) {
                return false;
            }
        }
        true
    }

    /// Whether a unit template only follows others: then it gets twice the room, and no chain.
    fn is_follower(&self, chain: &Chain, k: usize, budget: &mut Budget) -> Result<bool, Memory> {
        if self.takes_others(k, chain.ahead.templates.template(1)) {
            self.needs_twice(&chain.ahead, budget)
        } else {
            Ok(false)
        }
    }

    /// Whether a chain can be closed behind its first template with twice the room, and not with the room.
    fn needs_twice(&self, ahead: &Ahead, budget: &mut Budget) -> Result<bool, Memory> {
        let scaled = ScaledTemplates::of(self.alloc, &self.pool)?;
        Ok(
            !self.closes(&scaled, ahead, 1, 1, budget)?
                && self.closes(&scaled, ahead, 1, 2, budget)?,
        )
    }

    /// Marks the unit template of a state, if it follows others.
    fn try_follower(&mut self, chain: &Chain, k: usize, budget: &mut Budget) -> Result<(), Memory> {
        if self.is_follower(chain, k, budget)? {
            self.mark_follower(&chain.ahead, k);
        }
        Ok(())
    }

    /// Marks those that follow others.
    fn mark_followers(&mut self, chains: &[Chain], budget: &mut Budget) -> Result<(), Memory> {
        for chain in chains {
            if let Some(k) = chain.state {
                self.try_follower(chain, k, budget)?;
            }
        }
        Ok(())
    }

    /// Marks a state, and gives its unit template twice the room.
    fn mark_follower(&mut self, ahead: &Ahead, k: usize) {
        let room = self.room(ahead.templates.width(0), 2);
        self.pool.put_room(k, room);
        if let Some(slot) = self.factors.get_mut(k) {
            *slot = 2;
        }
        if let Some(slot) = self.costs.get_mut(k) {
            *slot = self.pool.cost(k);
        }
    }

    /// The first power of two at which a chain closes. None where there is none that it may have.
    fn doubled(
        &self,
        scaled: &ScaledTemplates<'_>,
        ahead: &Ahead,
        factor: i128,
        budget: &mut Budget,
    ) -> Result<Option<usize>, Memory> {
        let mut time: usize = 1;
        for _turn in 0..11 {
            if time > LONGEST || time.saturating_add(1) >= ahead.templates.len() {
                return Ok(None);
            }
            if self.closes(scaled, ahead, time, factor, budget)? {
                return Ok(Some(time));
            }
            time = time.saturating_mul(2);
        }
        Ok(None)
    }

    /// The least length at which a chain closes, between a power of two and the one before.
    fn wanted(
        &self,
        ahead: &Ahead,
        factor: i128,
        budget: &mut Budget,
    ) -> Result<Option<usize>, Memory> {
        let scaled = ScaledTemplates::of(self.alloc, &self.pool)?;
        match self.doubled(&scaled, ahead, factor, budget)? {
            Some(power) => self.least(&scaled, ahead, power, factor, budget),
            None => Ok(None),
        }
    }

    /// The least one up to a power of two.
    fn least(
        &self,
        scaled: &ScaledTemplates<'_>,
        ahead: &Ahead,
        power: usize,
        factor: i128,
        budget: &mut Budget,
    ) -> Result<Option<usize>, Memory> {
        let mut high = power;
        let mut low = power / 2;
        for _turn in 0..11 {
            if high.saturating_sub(low) > 1 {
                let middle = low.saturating_add(high) / 2;
                if self.closes(scaled, ahead, middle, factor, budget)? {
                    high = middle;
                } else {
                    low = middle;
                }
            }
        }
        Ok(Some(high))
    }

    /// Adds the template of a chain at a time.
    fn put_template(&mut self, ahead: &Ahead, time: usize, room: i128) -> Result<usize, Memory> {
        let reach = ahead.templates.reach(time);
        self.pool.push_template(
            self.alloc,
            ahead.templates.template(time),
            ahead.templates.width(0),
            reach,
            room,
        )
    }

    /// Has a template wait for an exchange of its image, the template of a chain at a time.
    fn put_end(&mut self, ahead: &Ahead, time: usize, template: usize) -> Result<(), Memory> {
        let image = Vec::from_slice(self.alloc, ahead.templates.template(time))?;
        self.ends.push(End { image, template })?;
        Ok(())
    }

    /// Adds so many templates of a chain behind its first. Each is shown by the next, or waits for an exchange where
    /// that isn't its image, as the last does.
    fn put_templates(&mut self, chain: &Chain, count: usize, factor: i128) -> Result<(), Memory> {
        let ahead = &chain.ahead;
        let room = self.room(ahead.templates.width(0), factor);
        let mut last = match chain.state {
            Some(k) => k,
            None => self.put_template(ahead, 0, room)?,
        };
        let mut time: usize = 0;
        for _template in 0..count {
            let image = time.saturating_add(1);
            time = time.saturating_add(self.stride);
            let next = self.put_template(ahead, time, room)?;
            if image == time {
                self.pool.put_share(self.alloc, last, once(next))?;
            } else {
                self.put_end(ahead, image, last)?;
            }
            last = next;
        }
        self.put_end(ahead, time.saturating_add(1), last)
    }

    /// Adds a chain. False where there is no place for it.
    fn put_chain(&mut self, chain: &Chain, budget: &mut Budget) -> Result<bool, Memory> {
        let factor = match chain.state {
            Some(k) => self.factors.get(k).copied().unwrap_or(1),
            None => 1,
        };
        let wanted = if factor == 1 {
            self.wanted(&chain.ahead, factor, budget)?
        } else {
            Some(1)
        };
        match wanted {
            Some(length) => self.put_length(chain, length, factor),
            None => Ok(false),
        }
    }

    /// Adds a chain of so many templates, likewise.
    fn put_length(&mut self, chain: &Chain, length: usize, factor: i128) -> Result<bool, Memory> {
        let more = length
            .saturating_sub(1)
            .checked_div(self.stride)
            .unwrap_or(0);
        let has_place = more <= self.left;
        if has_place {
            self.left = self.left.saturating_sub(more);
            self.put_templates(chain, more, factor)?;
        }
        Ok(has_place)
    }

    /// Adds all chains, likewise.
    fn put_chains(&mut self, chains: &[Chain], budget: &mut Budget) -> Result<bool, Memory> {
        for chain in chains {
            if !self.put_chain(chain, budget)? {
                return Ok(false);
            }
        }
        Ok(true)
    }

    /// The shares of all templates that wait for an exchange.
    fn exchanged(&self, budget: &mut Budget) -> Result<Vec<Vec<Share>>, Memory> {
        let scaled = ScaledTemplates::of(self.alloc, &self.pool)?;
        let mut shares = Vec::new(self.alloc);
        for end in &self.ends {
            put_exchanged(self.alloc, &scaled, &end.image, &mut shares, budget)?;
        }
        Ok(shares)
    }

    /// Gives the templates that waited what exchanges find for them.
    fn exchange_ends(&mut self, budget: &mut Budget) -> Result<(), Memory> {
        let mut shares = self.exchanged(budget)?;
        for i in 0..self.ends.len() {
            let own = taken(self.alloc, &mut shares, i);
            self.put_end_shares(i, own);
        }
        Ok(())
    }

    /// Gives the template that waits at place `i` these shares.
    fn put_end_shares(&mut self, i: usize, shares: Vec<Share>) {
        if let Some(end) = self.ends.get(i) {
            self.pool.put_shares(end.template, shares);
        }
    }

    /// The pool, with what exchanges find for the templates that waited.
    pub fn finish(self, budget: &mut Budget) -> Result<Pool, Memory> {
        let mut building = self;
        building.exchange_ends(budget)?;
        Ok(building.pool)
    }
}

impl Building<'_> {
    /// Puts in the unit templates, those of poles, and all chains. False where the chains have no place.
    fn fill(
        &mut self,
        chains: &[Chain],
        planes: &Templates,
        budget: &mut Budget,
    ) -> Result<bool, Memory> {
        self.put_units(chains)?;
        self.put_poles(planes)?;
        self.left = TEMPLATES
            .saturating_sub(self.pool.templates.len())
            .saturating_sub(free_chains(chains));
        self.mark_followers(chains, budget)?;
        self.put_chains(chains, budget)
    }
}

/// A pool with all chains of a step of the ladder and these templates of poles, but without what exchanges find for the
/// ends; none where the chains have no place.
pub fn place<'a>(
    alloc: Global,
    chains: &[Chain],
    linear: &'a Linear,
    rung: Rung,
    stride: usize,
    planes: &Templates,
    budget: &mut Budget,
) -> Result<Option<Building<'a>>, Memory> {
    if linear.states.saturating_add(planes.len()) > MOST_OF_POLES {
        return Ok(None);
    }
    let mut building = Building::new(alloc, linear, rung, stride);
    if building.fill(chains, planes, budget)? {
        Ok(Some(building))
    } else {
        Ok(None)
    }
}
