//! One value behind one turn: a table of one word and one slot, under a rule with three kinds of
//! step.
//!
//! The word is twice the number of entries of the value that was given last, and one more while a
//! caller has the value. A fetch that sets the lowest bit takes the turn where the bit was clear, a
//! store gives it, and a load counts. The slot has the value while nobody holds it.
ghost use Rattle.std.specs.Prelude.{◌≡◌, ℕ, ◌+◌, ◌*◌, ◌^◌, ◌<◌, ◌≤◌, List, [], ◌∷◌, ◌++◌, length, true, false, Some, IfOk, IfErr, IfSome, IfNone};
ghost use Rattle.atomic_table.specs.Seated.{TableId};
ghost use Rattle.bc_base.specs.Lists.{Each};
ghost use Rattle.bc_base.specs.Story.{own};
ghost use Rattle.bc_turn.specs.Turning.{sum_of, names, has, AtRest, Holding, ViewTook, ViewGoesOn, Stayed, Counted, SameSeat, Alone, Fits, mine, left_over, cut_off, joined_view, view_of, newcomers};

use crate::story::Story;
use crate::view::View;
use atomic_table::{Join, Play, Seat, Split, Table, TableRule};
use std::alloc::{AllocError, Global};
use std::marker::PhantomData;
use std::sync::Wait;
use std::thread;

/// What a cell is given when it is made: the base, and how many callers it has.
#[derive(Drop)]
pub struct About<V: Story> {
    pub base: V::Base,
    pub callers: u16,
}

/// The rule of the table.
pub struct Law<V> {
    value: PhantomData<V>,
}

impl<V: Story> TableRule<Option<V>, View<V::Item, V::Base>, About<V>> for Law<V> {
    ghost use Rattle.bc_turn.specs.Turning.{Turning, view_of, newcomers};
    ghost use Rattle.std.specs.Prelude.{Some};

    ghost holds = { λ k. Turning V.entries_of V.keeps V.by k.base k.callers };

    ghost first = { λ k. view_of (Some k.base) (newcomers k.callers) };
}

/// A seat of one cell.
pub type Place<V> = Seat<Option<V>, View<<V as Story>::Item, <V as Story>::Base>>;

/// One value behind one turn.
#[derive(Drop)]
pub struct Cell<V: Story> {
    table: Table<Option<V>, View<V::Item, V::Base>, About<V>, Law<V>, Global>,
    ghost sized: { table.shared.table_id.words ≡ 1 },
}

/// A seat for one caller is cut off from one that stands for several.
struct Off;

impl<E, B> Split<View<E, B>> for Off {
    ghost use Rattle.bc_turn.specs.Turning.{left_over, cut_off};

    ghost left = { left_over };

    ghost right = { cut_off };
}

/// A seat takes in the callers of another.
struct In;

impl<E, B> Join<View<E, B>> for In {
    ghost use Rattle.bc_turn.specs.Turning.{joined_view, view_of};
    ghost use Rattle.std.specs.Prelude.{None, []};

    ghost both = { joined_view };

    ghost spent = { view_of None [] };
}

/// The fetch that sets the lowest bit.
struct Try<V> {
    value: PhantomData<V>,
}

impl<V: Story> Play<Option<V>, View<V::Item, V::Base>> for Try<V> {
    ghost use Rattle.bc_turn.specs.Turning.{tried};

    ghost then = { tried V.entries_of V.keeps V.by };
}

/// The store that gives the turn.
struct Give<V> {
    value: PhantomData<V>,
}

impl<V: Story> Play<Option<V>, View<V::Item, V::Base>> for Give<V> {
    ghost use Rattle.bc_turn.specs.Turning.{gave};

    ghost then = { gave V.entries_of V.keeps V.by };
}

/// The load that counts.
struct Count<V> {
    value: PhantomData<V>,
}

impl<V: Story> Play<Option<V>, View<V::Item, V::Base>> for Count<V> {
    ghost use Rattle.bc_turn.specs.Turning.{counted};

    ghost then = { counted V.entries_of V.keeps V.by };
}

impl<V: Story> Cell<V> {
    /// Takes the value, where its one fetch found that no caller has it.
    pub fn try_take(&self, place: &mut Place<V>) -> Option<V>
        requires own { place.old.table_id ≡ self.now.table.shared.table_id }
        requires rest { AtRest place.old.me }
        ensures seat { SameSeat place.old place.new }
        ensures some { IfSome result (λ v. ViewTook V.entries_of V.keeps V.by place.old.me v place.new.me) }
        ensures once { IfSome result (λ v. (mine place.new.me.0).missed ≡ (mine place.old.me.0).missed) }
        ensures none { IfNone result (Stayed place.old.me place.new.me 1) }
    {
        let found = self.table.shared.fetch_or::<Try<V>>(place, 0, 1);
        if found % 2 == 0 {
            self.table.shared.exchange(place, 0, None)
        } else {
            None
        }
    }

    /// Takes the value, and waits for it.
    pub fn take<R: Wait>(&self, rt: &R, place: &mut Place<V>) -> V
        requires own { place.old.table_id ≡ self.now.table.shared.table_id }
        requires rest { AtRest place.old.me }
        ensures seat { SameSeat place.old place.new }
        ensures took { ViewTook V.entries_of V.keeps V.by place.old.me result place.new.me }
    {
        for _ in rt.forever() {
            if let Some(value) = self.try_take(place) {
                return value;
            }
            thread::yield_now();
        }
        unreachable!()
    }

    /// Gives the value back.
    pub fn give(&self, place: &mut Place<V>, value: V)
        requires own { place.old.table_id ≡ self.now.table.shared.table_id }
        requires held { Holding place.old.me }
        requires story { ViewGoesOn V.entries_of V.keeps V.by place.old.me.0 value }
        ensures seat { SameSeat place.old place.new }
        ensures gave { AtRest place.new.me × ((mine place.new.me.0).seen ≡ V.entries_of value)
            × ((mine place.new.me.0).missed ≡ (mine place.old.me.0).missed) }
    {
        let count = value.entries();
        let was = self.table.shared.exchange(place, 0, Some(value));
        let None = was else { unreachable!() };
        self.table.shared.store::<Give<V>>(place, 0, 2 * count);
    }

    /// How many entries the value has that was last given.
    pub fn entries(&self, place: &mut Place<V>) -> u64
        requires own { place.old.table_id ≡ self.now.table.shared.table_id }
        requires alone { Alone place.old.me.0 }
        ensures seat { SameSeat place.old place.new }
        ensures count { Counted V.entries_of V.keeps V.by place.old.me place.new.me result }
    {
        self.table.shared.load::<Count<V>>(place, 0) / 2
    }

    /// Cuts a seat for one caller off.
    pub fn cut(&self, place: &mut Place<V>) -> Place<V>
        requires own { place.old.table_id ≡ self.now.table.shared.table_id }
        ensures left { (place.new.table_id ≡ place.old.table_id)
            × (place.new.me ≡ (left_over place.old.me.0, place.old.me.1)) }
        ensures given { (result.table_id ≡ place.old.table_id) × (result.me ≡ (cut_off place.old.me.0, [])) }
    {
        self.table.shared.split_seat::<Off>(place)
    }

    /// Takes in another seat's callers.
    pub fn join(&self, place: &mut Place<V>, other: Place<V>)
        requires own { (place.old.table_id ≡ self.now.table.shared.table_id)
            × (other.table_id ≡ self.now.table.shared.table_id) }
        requires rest { (other.me.1 ≡ []) × (0 < length place.old.me.0.accounts) }
        ensures { (place.new.table_id ≡ place.old.table_id)
            × (place.new.me ≡ (joined_view place.old.me.0 other.me.0, place.old.me.1)) }
    {
        self.table.shared.join_seat::<In>(place, other);
    }

    /// The value at the end, by a seat that stands for all callers.
    pub fn close(self, place: Place<V>) -> V
        requires own { place.table_id ≡ self.table.shared.table_id }
        requires here { (c : ℕ) → c < self.table.shared.key.callers → 0 < sum_of (names c) place.me.0.accounts }
        requires free { sum_of has place.me.0.accounts ≡ 0 }
        ensures base { V.keeps self.table.shared.key.base result }
        ensures fits { Each (Fits V.by (V.entries_of result)) place.me.0.accounts }
        ensures strangers { (c : ℕ) → self.table.shared.key.callers ≤ c → own V.by c (V.entries_of result) ≡ [] }
    {
        let Cell { table } = self;
        let mut closed = table.close_with(place);
        let value = closed.take(0);
        closed.free();
        match value {
            Some(value) => value,
            None => unreachable!(),
        }
    }
}

impl<V: Story + Drop> Cell<V> {
    /// A cell, and the seat that stands for all its callers.
    ///
    /// # Errors
    ///
    /// `AllocError` where there is no memory for the cell, its word or its seats. The value is dropped.
    pub fn open(
        alloc: Global,
        value: V,
        base: V::Base,
        callers: u16,
    ) -> Result<(Cell<V>, Place<V>), AllocError>
        requires empty { V.entries_of value ≡ [] }
        requires keeps { V.keeps base value }
        ensures { IfOk result (λ r. (r.1.table_id ≡ r.0.table.shared.table_id)
            × (r.0.table.shared.key.callers ≡ callers) × (r.0.table.shared.key.base ≡ base)
            × (r.1.me ≡ (view_of (Some base) (newcomers callers), []))) }
    {
        let about = About { base, callers };
        let mut slots = Vec::new(alloc);
        slots.push(Some(value))?;
        let Ok((table, place)) = Table::new(alloc, &[0], slots, &about) else {
            return Err(AllocError);
        };
        Ok((Cell { table }, place))
    }
}
