//! Many values, each behind a turn of its own.
ghost use Rattle.std.specs.Prelude.{◌≡◌, ℕ, ◌+◌, ◌<◌, ◌≤◌, List, [], ◌∷◌, flat_map, length, map, false, true, Some, IfSome, IfNone, IfOk, IfErr, OnOk, vec_len, reverse};
ghost use Rattle.std.specs.List.{range_with_len};
ghost use Rattle.bc_base.specs.Lists.{Each};
ghost use Rattle.bc_turn.specs.Turning.{sum_of, newcomers, view_of};
ghost use Rattle.bc_base.specs.Lists.{AllAt, EachFrom};
ghost use Rattle.bc_turn.specs.PassParts.{IsOf, Changes, with_miss, without_turn, Takes, TakesLater, GoesOn, Counts, IsClosed, accounts_from, is_caller, cut_to, new_pass, with_cell};

use crate::cell::{Cell, Place};
use crate::pass::TurnPass;
use crate::post::Post;
use crate::story::Story;
use std::alloc::{AllocError, Global};
use std::marker::Model;
use std::sync::Wait;

/// Values behind turns, one in each cell. Contracts see how many callers there are, and each cell
/// with its value's base.
#[derive(Drop)]
pub struct Turns<V: Story> {
    pub(crate) alloc: Global,
    pub(crate) callers: u16,
    pub(crate) cells: Vec<Cell<V>>,
}

impl<V: Story> Model for Turns<V> {
    ghost use Rattle.std.specs.Prelude.{◌≡◌, ◌≤◌, ℕ, List, map};
    ghost use Rattle.bc_base.specs.Lists.{Each};
    ghost use Rattle.bc_turn.specs.PassParts.{TurnsData, CellData};

    ghost Value = { TurnsData V.Base };

    ghost view = { λ t. record {
      callers = t.callers;
      cells = map (λ c. record { id = c.table.shared.table_id; base = c.table.shared.key.base }) t.cells.items;
    } };

    ghost invariant = { λ t. (1 ≤ t.callers) × Each (λ c. c.table.shared.key.callers ≡ t.callers) t.cells.items };
}

impl<V: Story> Turns<V> {
    /// Takes the value of a cell, if nobody has it: exactly where its one fetch found the turn
    /// free. The pass doesn't hold the cell. Paired with [`Turns::give`].
    ///
    /// The value begins with all that the pass had seen, keeps to its base, and has of this caller
    /// the pass's own entries alone; its story is then what the pass has seen. Without a value the
    /// pass has missed the turn once more.
    pub fn try_take(&self, pass: &mut TurnPass<V>, cell: u16) -> Option<V>
        requires pass { IsOf self.now pass.old }
        requires cell { cell < length self.now.cells }
        requires rest { AllAt pass.old.parts cell (λ q. q.holds ≡ false) }
        ensures pass { IsOf self.now pass.new }
        ensures some { IfSome result (λ v.
            Changes pass.old pass.new cell (λ q q'. Takes V.entries_of V.keeps V.by q v q')) }
        ensures none { IfNone result (Changes pass.old pass.new cell (λ q q'. q' ≡ with_miss q)) }
    {
        pass.posts[usize::from(cell)].try_take(&self.cells[usize::from(cell)])
    }

    /// Takes the value of a cell, as [`Turns::try_take`], and waits while another caller has it.
    /// The pass doesn't hold the cell. Paired with [`Turns::give`].
    pub fn take<R: Wait>(&self, rt: &R, pass: &mut TurnPass<V>, cell: u16) -> V
        requires pass { IsOf self.now pass.old }
        requires cell { cell < length self.now.cells }
        requires rest { AllAt pass.old.parts cell (λ q. q.holds ≡ false) }
        ensures pass { IsOf self.now pass.new }
        ensures took { Changes pass.old pass.new cell (λ q q'. TakesLater V.entries_of V.keeps V.by q result q') }
    {
        pass.posts[usize::from(cell)].take(rt, &self.cells[usize::from(cell)])
    }

    /// Gives the value of a cell back, with the entries that this caller added. The pass holds the
    /// cell, and the value is the taken one followed by entries of this caller, fewer than 2^62 in
    /// all.
    pub fn give(&self, pass: &mut TurnPass<V>, cell: u16, value: V)
        requires pass { IsOf self.now pass.old }
        requires cell { cell < length self.now.cells }
        requires held { AllAt pass.old.parts cell (λ q. (q.holds ≡ true) × GoesOn V.entries_of V.keeps V.by q value) }
        ensures pass { IsOf self.now pass.new }
        ensures gave { Changes pass.old pass.new cell (λ q q'. q' ≡ without_turn q (V.entries_of value)) }
    {
        pass.posts[usize::from(cell)].give(&self.cells[usize::from(cell)], value);
    }

    /// How many entries the value has that was given last, by one load: at least as many as the
    /// pass had seen, which then has seen so many. Waits for nobody.
    pub fn entries(&self, pass: &mut TurnPass<V>, cell: u16) -> u64
        requires pass { IsOf self.now pass.old }
        requires cell { cell < length self.now.cells }
        ensures pass { IsOf self.now pass.new }
        ensures count { Changes pass.old pass.new cell (λ q q'. Counts V.entries_of V.keeps V.by q q' result) }
    {
        pass.posts[usize::from(cell)].entries(&self.cells[usize::from(cell)])
    }

    /// The values at the end, in the order of the cells. All passes are here, and none holds a
    /// cell.
    ///
    /// Each value keeps to its base; what each pass has seen is a prefix of its story; and in each
    /// story the entries of a caller are those that its pass has seen, which are those that it
    /// made, each once, in its order.
    ///
    /// # Errors
    ///
    /// Out of memory: then all is handed back as it was.
    pub fn close(self, mut passes: Vec<TurnPass<V>>) -> Result<Vec<V>, (Turns<V>, Vec<TurnPass<V>>)>
        requires passes { Each (IsOf self) passes.items }
        requires all { (c : ℕ) → c < self.callers → 0 < sum_of (is_caller c) passes.items }
        requires free { Each (λ p. Each (λ q. q.holds ≡ false) p.parts) passes.items }
        ensures values { IfOk result (λ values. (length values.items ≡ length self.cells)
            × EachFrom (IsClosed V.entries_of V.keeps V.by self passes.items) 0 values.items) }
        ensures back { IfErr result (λ back. (back.0 ≡ self) × (back.1.items ≡ passes.items)) }
    {
        let Ok(mut ended) = Vec::with_capacity(self.alloc, self.cells.len()) else {
            return Err((self, passes));
        };
        let Turns {
            alloc: _,
            callers: _,
            mut cells,
        } = self;
        while let Some(cell) = cells.pop() {
            let joint = gather(&cell, &mut passes, cells.len());
            ended.push_reserved(cell.close(joint));
        }
        cells.destroy_empty();
        turn_round(&mut ended);
        Ok(ended)
    }
}

impl<V: Story + Drop> Turns<V> {
    /// Values behind turns, and a pass for each caller, whose numbers are 0 to `callers` - 1 in
    /// order. There are 1 to 65,535 values, each with its base, which it keeps to, and with no
    /// entries yet; and at least one caller.
    ///
    /// # Errors
    ///
    /// Out of memory: then the values are let go.
    pub fn open(
        alloc: Global,
        mut values: Vec<(V, V::Base)>,
        callers: u16,
    ) -> Result<(Turns<V>, Vec<TurnPass<V>>), AllocError>
        requires values { (1 ≤ length values.items) × (length values.items ≤ 65535) }
        requires callers { 1 ≤ callers }
        requires empty { Each (λ v. (V.entries_of v.0 ≡ []) × V.keeps v.1 v.0) values.items }
        ensures callers { IfOk result (λ r. r.0.callers ≡ callers) }
        ensures bases { IfOk result (λ r. map (λ c. c.base) r.0.cells ≡ map (λ v. v.1) values.items) }
        ensures passes { IfOk result (λ r. r.1.items ≡ map (new_pass r.0.cells) (range_with_len 0 callers)) }
    {
        let mut passes = blank_passes(alloc, callers)?;
        let mut cells = Vec::new(alloc);
        turn_round(&mut values);
        while let Some(value) = values.pop() {
            let (value, base) = value;
            let (cell, rest) = Cell::open(alloc, value, base, callers)?;
            seat_callers(&cell, rest, &mut passes)?;
            cells.push(cell)?;
        }
        let turns = Turns {
            alloc,
            callers,
            cells,
        };
        Ok((turns, passes))
    }
}

/// A pass with no cells for each caller.
fn blank_passes<V: Story>(alloc: Global, callers: u16) -> Result<Vec<TurnPass<V>>, AllocError>
    ensures { IfOk result (λ passes. passes.items ≡ map (new_pass []) (range_with_len 0 callers)) }
{
    let mut passes = Vec::new(alloc);
    for number in 0..callers {
        passes.push(TurnPass::blank(alloc, number))?;
    }
    Ok(passes)
}

/// Seats each caller at a cell. `rest` is the seat that stands for all of them.
fn seat_callers<V: Story>(
    cell: &Cell<V>,
    mut rest: Place<V>,
    passes: &mut Vec<TurnPass<V>>,
) -> Result<(), AllocError>
    requires own { rest.table_id ≡ cell.now.table.shared.table_id }
    requires rest { rest.me ≡ (
      view_of (Some cell.now.table.shared.key.base)
          (newcomers (length passes.old.items)),
      [],
    ) }
    requires numbers { map (λ p. p.caller) passes.old.items ≡ range_with_len 0 (length passes.old.items) }
    ensures { OnOk result (passes.new.items ≡ map
        (with_cell record { id = cell.now.table.shared.table_id; base = cell.now.table.shared.key.base })
        passes.old.items) }
{
    let mut left = passes.len();
    while left > 0 {
        left -= 1;
        let post = Post::new(cell.cut(&mut rest));
        passes[left].add(post)?;
    }
    Ok(())
}

/// One seat at a cell that stands for all callers. Each of them leaves the cell, which is its last,
/// after `left` others.
fn gather<V: Story>(cell: &Cell<V>, passes: &mut Vec<TurnPass<V>>, left: usize) -> Place<V>
    requires some { 0 < length passes.old.items }
    requires parts { Each (λ p. length p.parts ≡ left + 1) passes.old.items }
    requires cell { Each (λ p. AllAt p.parts left (λ q.
        (q.cell ≡ cell.now.table.shared.table_id) × (q.holds ≡ false))) passes.old.items }
    ensures passes { passes.new.items ≡ map (cut_to left) passes.old.items }
    ensures cell { result.table_id ≡ cell.now.table.shared.table_id }
    ensures joint { (result.me.0.accounts ≡ flat_map (accounts_from left) passes.old.items) × (result.me.1 ≡ []) }
{
    let mut joint = passes[0].leave(left).into_place();
    for k in 1..passes.len() {
        let place = passes[k].leave(left).into_place();
        cell.join(&mut joint, place);
    }
    joint
}

/// The last first.
fn turn_round<T>(items: &mut Vec<T>)
    ensures items { items.new.items ≡ reverse items.old.items }
    ensures length { vec_len items.new ≡ vec_len items.old }
{
    items.as_mut_slice().reverse();
}
