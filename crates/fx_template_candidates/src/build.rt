//! All templates of a try: chains one after the other, as long as there is place, and exchanges where they end early.

use fx_cert::Share;
use fx_num::{Dyadic, Memory, TEMPLATE_LIMIT};
use fx_simplex::{Budget, ScaledTemplates, exchange};
use fx_template_reach::{
    Ahead, Chain, Costs, Linear, Pool, find_closing, room, times_of, wanted_length,
};
use std::alloc::Global;
use std::mem::replace;

/// How many templates a certificate has at most, as lists count.
const TEMPLATES: usize = TEMPLATE_LIMIT as usize;

/// A template whose image isn't kept: it is taken apart by an exchange.
#[derive(Clone, Copy)]
struct End {
    chain: usize,
    time: usize,
    template: usize,
}

/// A pool while chains are put into it, with the templates that wait for an exchange.
#[derive(Drop)]
struct Building<'a> {
    alloc: Global,
    costs: &'a Costs,
    pool: Pool,
    ends: Vec<End>,
}

/// How many templates all chains want to have.
fn wanted_lengths(alloc: Global, chains: &[Chain], costs: &Costs) -> Result<Vec<usize>, Memory> {
    let mut lengths = Vec::new(alloc);
    for chain in chains {
        lengths.push(wanted_length(&chain.ahead, costs))?;
    }
    Ok(lengths)
}

/// How many templates chains of at most `cap` templates behind their first need.
fn needed(lengths: &[usize], cap: usize) -> usize {
    let mut count: usize = 0;
    for length in lengths {
        count = count.saturating_add(length.saturating_sub(1).min(cap));
    }
    count
}

/// How many templates behind its first a chain may have, so that all find their place.
fn cap_of(lengths: &[usize], places: usize) -> usize {
    let mut cap = 0;
    for longer in 0..TEMPLATES {
        if needed(lengths, longer) > places {
            return cap;
        }
        cap = longer;
    }
    cap
}

/// How many chains don't begin with a unit template.
pub fn free_chains(chains: &[Chain]) -> usize {
    let mut count: usize = 0;
    for chain in chains {
        if chain.state.is_none() {
            count = count.saturating_add(1);
        }
    }
    count
}

/// One share, taken once.
pub fn once(template: usize) -> Share {
    Share {
        template: u32::try_from(template).unwrap_or(u32::MAX),
        times: Dyadic { m: 1, e: 0 },
    }
}

/// Whether some of the times are left out.
fn have_gaps(times: &[usize]) -> bool {
    match times.last() {
        Some(last) => last.saturating_add(1) != times.len(),
        None => false,
    }
}

/// The room of the template at a time: in a chain with gaps it gets less.
fn room_at(own: i128, time: usize, length: usize, has_gaps: bool) -> i128 {
    if !has_gaps {
        return own;
    }
    let twice = (length as i128).saturating_mul(2);
    let used = own
        .saturating_mul(time as i128)
        .checked_div(twice)
        .unwrap_or(0);
    own.saturating_sub(used)
}

/// Takes shares out of a list of them.
pub fn taken(alloc: Global, shares: &mut Vec<Vec<Share>>, i: usize) -> Vec<Share> {
    match shares.get_mut(i) {
        Some(slot) => replace(slot, Vec::new(alloc)),
        None => Vec::new(alloc),
    }
}

impl End {
    /// The image that is taken apart.
    fn image(self, chains: &[Chain]) -> &[i128] {
        match chains.get(self.chain) {
            Some(chain) => chain.ahead.templates.template(self.time),
            None => &[],
        }
    }
}

/// Puts the shares that an exchange finds for a template behind others.
pub fn put_exchanged(
    alloc: Global,
    scaled: &ScaledTemplates<'_>,
    template: &[i128],
    shares: &mut Vec<Vec<Share>>,
    budget: &mut Budget,
) -> Result<(), Memory> {
    let found = exchange(alloc, scaled, template, budget)?;
    shares.push(found.shares)?;
    Ok(())
}

impl<'a> Building<'a> {
    /// No template yet.
    fn new(alloc: Global, linear: &Linear, costs: &'a Costs) -> Building<'a> {
        Building {
            alloc,
            costs,
            pool: Pool::new(alloc, linear.states, linear.scale, linear.spared),
            ends: Vec::new(alloc),
        }
    }

    /// The room of a chain.
    fn room(&self, ahead: &Ahead) -> i128 {
        room(ahead.templates.width(0), self.costs.shift)
    }

    /// Adds the unit templates.
    fn put_units(&mut self, chains: &[Chain]) -> Result<(), Memory> {
        for chain in chains {
            if let Some(k) = chain.state {
                let own = self.room(&chain.ahead);
                self.pool
                    .push_unit(self.alloc, k, chain.ahead.templates.reach(0), own)?;
            }
        }
        Ok(())
    }

    /// Adds the template of a chain at a time, and gives its number.
    fn put_template(&mut self, ahead: &Ahead, time: usize, own: i128) -> Result<usize, Memory> {
        let reach = ahead.templates.reach(time);
        self.pool.push_template(
            self.alloc,
            ahead.templates.template(time),
            ahead.templates.width(0),
            reach,
            own,
        )
    }

    /// Adds the templates of a chain at these times, and gives the number of the last. Each is shown by the next, or
    /// waits for an exchange where the next is left out.
    fn put_templates(
        &mut self,
        number: usize,
        chain: &Chain,
        length: usize,
        times: &[usize],
    ) -> Result<usize, Memory> {
        let own = self.room(&chain.ahead);
        let has_gaps = have_gaps(times);
        let mut last = match chain.state {
            Some(k) => k,
            None => self.put_template(&chain.ahead, 0, room_at(own, 0, length, has_gaps))?,
        };
        let mut before: usize = 0;
        for at in 1..times.len() {
            let time = times[at];
            let room = room_at(own, time, length, has_gaps);
            let template = self.put_template(&chain.ahead, time, room)?;
            self.join(number, last, before, template, time)?;
            last = template;
            before = time;
        }
        Ok(last)
    }

    /// Shows a template by the next of its chain, if that is its image; else it waits for an exchange.
    fn join(
        &mut self,
        chain: usize,
        template: usize,
        time: usize,
        next: usize,
        next_time: usize,
    ) -> Result<(), Memory> {
        let image = time.saturating_add(1);
        if image == next_time {
            self.pool.put_share(self.alloc, template, once(next))
        } else {
            self.put_end(chain, image, template)
        }
    }

    /// Has a template wait for an exchange of its image, which has this time.
    fn put_end(&mut self, chain: usize, time: usize, template: usize) -> Result<(), Memory> {
        self.ends.push(End {
            chain,
            time,
            template,
        })?;
        Ok(())
    }

    /// Closes a chain at its last template, which takes itself so often, or has it wait for an exchange of its image,
    /// which has this time.
    fn close(
        &mut self,
        chain: usize,
        closing: Option<Dyadic>,
        template: usize,
        time: usize,
    ) -> Result<(), Memory> {
        match closing {
            Some(times) => self.close_on_itself(template, times),
            None => self.put_end(chain, time, template),
        }
    }

    /// Shows a template by itself, so many times, if that isn't 0.
    fn close_on_itself(&mut self, template: usize, times: Dyadic) -> Result<(), Memory> {
        if times.m == 0 {
            return Ok(());
        }
        let own = Share {
            template: u32::try_from(template).unwrap_or(u32::MAX),
            times,
        };
        self.pool.put_share(self.alloc, template, own)
    }

    /// Adds a chain of at most so many templates. False where growing times don't suffice.
    fn put_chain(
        &mut self,
        number: usize,
        chain: &Chain,
        length: usize,
        most: usize,
        is_growing: bool,
    ) -> Result<bool, Memory> {
        let closing = find_closing(&chain.ahead, length.saturating_sub(1), self.costs);
        match times_of(self.alloc, length, closing.is_some(), most, is_growing)? {
            Some(times) => {
                self.put_times(number, chain, length, &times, closing)?;
                Ok(true)
            }
            None => Ok(false),
        }
    }

    /// Adds the templates of a chain at these times, and closes it so, if that is at its wanted length.
    fn put_times(
        &mut self,
        number: usize,
        chain: &Chain,
        length: usize,
        times: &[usize],
        closing: Option<Dyadic>,
    ) -> Result<(), Memory> {
        let last = self.put_templates(number, chain, length, times)?;
        let image = times.last().copied().unwrap_or(0).saturating_add(1);
        let closing = if image == length { closing } else { None };
        self.close(number, closing, last, image)
    }

    /// Adds all chains, likewise.
    fn put_chains(
        &mut self,
        chains: &[Chain],
        lengths: &[usize],
        most: usize,
        is_growing: bool,
    ) -> Result<bool, Memory> {
        for number in 0..chains.len().min(lengths.len()) {
            let length = lengths[number];
            if !self.put_chain(number, &chains[number], length, most, is_growing)? {
                return Ok(false);
            }
        }
        Ok(true)
    }

    /// The shares of all templates that wait for an exchange.
    fn exchanged(&self, chains: &[Chain], budget: &mut Budget) -> Result<Vec<Vec<Share>>, Memory> {
        let scaled = ScaledTemplates::of(self.alloc, &self.pool)?;
        let mut shares = Vec::new(self.alloc);
        for end in &self.ends {
            put_exchanged(self.alloc, &scaled, end.image(chains), &mut shares, budget)?;
        }
        Ok(shares)
    }

    /// Gives the templates that waited what exchanges find for them.
    fn exchange_ends(&mut self, chains: &[Chain], budget: &mut Budget) -> Result<(), Memory> {
        let mut shares = self.exchanged(chains, budget)?;
        for i in 0..self.ends.len() {
            let own = taken(self.alloc, &mut shares, i);
            self.put_end_shares(i, own);
        }
        Ok(())
    }

    /// Gives the template that waits at place `i` these shares.
    fn put_end_shares(&mut self, i: usize, shares: Vec<Share>) {
        if let Some(end) = self.ends.get(i) {
            self.pool.put_shares(end.template, shares);
        }
    }

    /// Puts in the unit templates and all chains, as long as there is place. False where growing times don't suffice.
    fn fill(
        &mut self,
        chains: &[Chain],
        is_growing: bool,
        budget: &mut Budget,
    ) -> Result<bool, Memory> {
        let lengths = wanted_lengths(self.alloc, chains, self.costs)?;
        let places = TEMPLATES
            .saturating_sub(self.pool.templates.states)
            .saturating_sub(free_chains(chains));
        let most = cap_of(&lengths, places).saturating_add(1);
        self.put_units(chains)?;
        if !self.put_chains(chains, &lengths, most, is_growing)? {
            return Ok(false);
        }
        self.exchange_ends(chains, budget)?;
        Ok(true)
    }
}

/// The templates of a try with this room; none where growing times don't suffice.
pub fn build(
    alloc: Global,
    chains: &[Chain],
    linear: &Linear,
    costs: &Costs,
    is_growing: bool,
    budget: &mut Budget,
) -> Result<Option<Pool>, Memory> {
    let mut building = Building::new(alloc, linear, costs);
    if building.fill(chains, is_growing, budget)? {
        Ok(Some(building.pool))
    } else {
        Ok(None)
    }
}
