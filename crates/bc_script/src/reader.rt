//! A script that is being read, line after line.

ghost use Rattle.std.specs.Prelude.{◌≡◌, ◌+◌, ◌++◌, true, [], length, Some, OnOk, OnErr, IfOk, IfErr};
ghost use Rattle.bc_script.specs.declared.statement.Statement.TheVariants as statements;
ghost use Rattle.bc_script.specs.declared.sort.Sort.TheVariants as sorts;
ghost use Rattle.bc_script.specs.Script.{IsScript, IsDiskSize};
ghost use Rattle.bc_script.specs.ScriptText.{script_lines};
ghost use Rattle.bc_script.specs.Order.{may_follow};
ghost use Rattle.bc_script.specs.ScriptErrors.{error_at, error_at_end, is_end};
ghost use Rattle.bc_text.specs.Lines.{is_nothing};
ghost use Rattle.bc_script.specs.Progress.{IsProgress, lines_read, forms_read, is_in_section, with_section};
ghost use Rattle.bc_script.specs.Statements.{Fits, FitsDevice, FitsKey, FitsFault, FitsOp, CoverDisk, PlugsAreClosed, EndsSection, HasRoomFor, sort_of_statement, with_statement, with_section_ended};
ghost use Rattle.bc_script.specs.Reading.{TookScriptLine, IsWholeScript, ReportsNext, left_section};

mod line;

use crate::named_key::NamedKey;
use crate::named_keys::NamedKeys;
use crate::op::{Op, add_op};
use crate::script::Script;
use crate::script_error::{ParseError, ScriptError, ScriptWhy};
use crate::sort::Sort;
use crate::statement::{Statement, Unread};
use bc_base::Items;
use bc_stack::Target;
use bc_text::Parts;
use std::alloc::{AllocError, Global};
use std::marker::Model;

/// What the lines say that have been read.
#[derive(Drop)]
pub(crate) struct Reader {
    /// How many lines have been read.
    lines: u32,
    last: Option<Sort>,
    blocks: u32,
    fallback: bool,
    targets: Vec<Target>,
    keys: NamedKeys,
    faults: Vec<(u16, u32)>,
    /// The sections that have ended.
    threads: Vec<Items<Op>>,
    /// The section that is being read.
    section: Vec<Op>,
    plugged: bool,
    /// How many operations all sections have, and how many data units all bios.
    ops: u32,
    units: u32,
}

impl Model for Reader {
    ghost use Rattle.bc_script.specs.Progress.{Progress};
    ghost use Rattle.bc_script.specs.Reading.{IsReading};

    ghost Value = { Progress };

    ghost view = { λ r. record {
      last = r.last;
      blocks = r.blocks;
      fallback = r.fallback;
      targets = r.targets.items;
      keys = r.keys;
      faults = r.faults.items;
      threads = r.threads.items;
      section = r.section.items;
    } };

    ghost invariant = { λ r. IsReading (record {
      last = r.last;
      blocks = r.blocks;
      fallback = r.fallback;
      targets = r.targets.items;
      keys = r.keys;
      faults = r.faults.items;
      threads = r.threads.items;
      section = r.section.items;
    }) r.lines r.plugged r.ops r.units };
}

impl Reader {
    /// No line has been read.
    pub(crate) fn new(alloc: Global) -> Reader
        ensures { lines_read result ≡ [] }
    {
        Reader {
            lines: 0,
            last: None,
            blocks: 0,
            fallback: true,
            targets: Vec::new(alloc),
            keys: NamedKeys::new(alloc),
            faults: Vec::new(alloc),
            threads: Vec::new(alloc),
            section: Vec::new(alloc),
            plugged: false,
            ops: 0,
            units: 0,
        }
    }

    /// Reads the next line.
    pub(crate) fn take(&mut self, alloc: Global, line: Parts) -> Result<(), ParseError>
        ensures ok { OnOk result (TookScriptLine self.old line.entry self.new) }
        ensures bad { IfErr result (ReportsNext self.old (error_at (forms_read self.old) line.entry)) }
    {
        match self.statement(alloc, line) {
            Ok(statement) => match self.add(alloc, statement) {
                Ok(()) => Ok(()),
                Err(_) => Err(ParseError::Memory),
            },
            Err(Unread::Bad(why)) => Err(ParseError::Bad(ScriptError {
                line: self.next_line(),
                why,
            })),
            Err(Unread::Memory) => Err(ParseError::Memory),
        }
    }

    /// The sort of the nearest line.
    fn last_sort(&self) -> Option<Sort>
        ensures value { result ≡ self.now.last }
        ensures rules { IsProgress self.now }
    {
        self.last
    }

    /// The number of the next line.
    fn next_line(&self) -> u32
        ensures { result ≡ length (forms_read self.now) + 1 }
    {
        self.lines + 1
    }

    /// Appends what the next line says.
    fn add(&mut self, alloc: Global, statement: Statement) -> Result<(), AllocError>
        requires follows { may_follow self.old.last (sort_of_statement statement) ≡ true }
        requires fits { Fits self.old statement }
        ensures ok { OnOk result (self.new ≡ with_statement self.old statement) }
    {
        match statement {
            Statement::Version => {
                self.add_version();
                Ok(())
            }
            Statement::Disk(blocks) => {
                self.add_disk(blocks);
                Ok(())
            }
            Statement::Fallback(on) => {
                self.add_fallback(on);
                Ok(())
            }
            Statement::Device(device) => self.add_device(device),
            Statement::Key(named) => self.add_key(alloc, named),
            Statement::Fault(fault) => self.add_fault(fault),
            Statement::Thread => self.end_section(alloc, Sort::Thread),
            Statement::Operation(op) => self.add_operation(op),
            Statement::End => self.end_section(alloc, Sort::End),
        }
    }

    fn add_version(&mut self)
        requires { may_follow self.old.last sorts.Version ≡ true }
        ensures { self.new ≡ with_statement self.old statements.Version }
    {
        self.last = Some(Sort::Version);
        self.lines += 1;
    }

    fn add_disk(&mut self, blocks: u32)
        requires follows { may_follow self.old.last sorts.Disk ≡ true }
        requires size { IsDiskSize blocks }
        ensures { self.new ≡ with_statement self.old (statements.Disk blocks) }
    {
        self.last = Some(Sort::Disk);
        self.blocks = blocks;
        self.lines += 1;
    }

    fn add_fallback(&mut self, on: bool)
        requires { may_follow self.old.last sorts.Fallback ≡ true }
        ensures { self.new ≡ with_statement self.old (statements.Fallback on) }
    {
        self.last = Some(Sort::Fallback);
        self.fallback = on;
        self.lines += 1;
    }

    fn add_device(&mut self, device: Target) -> Result<(), AllocError>
        requires follows { may_follow self.old.last sorts.Device ≡ true }
        requires fits { FitsDevice self.old device }
        ensures { OnOk result (self.new ≡ with_statement self.old (statements.Device device)) }
    {
        self.targets.push(device)?;
        self.last = Some(Sort::Device);
        self.lines += 1;
        Ok(())
    }

    fn add_key(&mut self, alloc: Global, named: NamedKey) -> Result<(), AllocError>
        requires follows { may_follow self.old.last sorts.Key ≡ true }
        requires fits { FitsKey self.old named }
        ensures { OnOk result (self.new ≡ with_statement self.old (statements.Key named)) }
    {
        self.keys.add(alloc, named)?;
        self.last = Some(Sort::Key);
        self.lines += 1;
        Ok(())
    }

    fn add_fault(&mut self, fault: (u16, u32)) -> Result<(), AllocError>
        requires follows { may_follow self.old.last sorts.Fault ≡ true }
        requires fits { FitsFault self.old fault }
        ensures { OnOk result (self.new ≡ with_statement self.old (statements.Fault fault)) }
    {
        self.faults.push(fault)?;
        self.last = Some(Sort::Fault);
        self.lines += 1;
        Ok(())
    }

    fn add_operation(&mut self, op: Op) -> Result<(), AllocError>
        requires follows { may_follow self.old.last sorts.Operation ≡ true }
        requires fits { FitsOp self.old op }
        ensures { OnOk result (self.new ≡ with_statement self.old (statements.Operation op)) }
    {
        let units = op.units();
        let plugged = op.plugs(self.plugged);
        add_op(&mut self.section, op)?;
        self.ops += 1;
        self.units += units;
        self.plugged = plugged;
        self.last = Some(Sort::Operation);
        self.lines += 1;
        Ok(())
    }

    /// Puts the section that is being read, if one is, after those that have ended.
    fn end_section(&mut self, alloc: Global, sort: Sort) -> Result<(), AllocError>
        requires sort { EndsSection sort }
        requires follows { may_follow self.old.last sort ≡ true }
        requires closed { PlugsAreClosed self.old }
        requires whole { CoverDisk self.old }
        requires room { HasRoomFor self.old sort }
        ensures { OnOk result (self.new ≡ with_section_ended self.old sort) }
    {
        let inside = is_in_section(self.last);
        put_section(alloc, inside, &mut self.section, &mut self.threads)?;
        self.last = Some(sort);
        self.lines += 1;
        Ok(())
    }

    /// The script, whose last line has been read, and which has nothing after it but this.
    pub(crate) fn finish(self, rest: Parts) -> Result<Script, ParseError>
        ensures ok { IfOk result (IsWholeScript self rest.entry) }
        ensures bad { IfErr result (ReportsNext self (error_at_end (forms_read self) rest.entry)) }
    {
        if !is_end(self.last_sort()) || !rest.is_nothing() {
            return Err(ParseError::Bad(ScriptError {
                line: self.next_line(),
                why: ScriptWhy::End,
            }));
        }
        Ok(self.into_script())
    }

    /// The script whose last line has been read.
    fn into_script(self) -> Script
        requires { self.last ≡ Some sorts.End }
        ensures valid { IsScript result }
        ensures lines { script_lines result ≡ lines_read self }
    {
        let Reader {
            blocks,
            fallback,
            targets,
            keys,
            faults,
            threads,
            ..
        } = self;
        Script::new(
            blocks,
            fallback,
            Items::from_vec(targets),
            keys.into_items(),
            Items::from_vec(faults),
            Items::from_vec(threads),
        )
    }
}

/// Whether the nearest line is the last one.
fn is_end(last: Option<Sort>) -> bool
    ensures { result ≡ is_end last }
{
    match last {
        Some(Sort::End) => true,
        _ => false,
    }
}

/// Whether a section is being read.
fn is_in_section(last: Option<Sort>) -> bool
    ensures { result ≡ is_in_section last }
{
    match last {
        Some(Sort::Thread | Sort::Operation) => true,
        _ => false,
    }
}

/// Puts the section, if one is being read, after those that have ended.
fn put_section(
    alloc: Global,
    inside: bool,
    section: &mut Vec<Op>,
    threads: &mut Vec<Items<Op>>,
) -> Result<(), AllocError>
    ensures ended { OnOk result (threads.new.items ≡ threads.old.items ++ with_section inside section.old.items) }
    ensures begun { OnOk result (section.new.items ≡ left_section inside section.old.items) }
    ensures kept { OnErr result (threads.new.items ≡ threads.old.items) }
    ensures going_on { OnErr result (section.new.items ≡ section.old.items) }
{
    if !inside {
        return Ok(());
    }
    threads.reserve(1)?;
    let ended = std::mem::replace(section, Vec::new(alloc));
    let Ok(()) = threads.push(Items::from_vec(ended)) else {
        unreachable!()
    };
    Ok(())
}
