// The machine: a run that can be stopped and goes on.
ghost use Rattle.std.specs.Prelude.{◌≡◌, ◌≤◌, ◌<◌, ◌+◌, ◌^◌, true, false, None, IfOk, IsErr, IsOk, OnOk, OnErr};
ghost use Rattle.c_calls.specs.Calling.{IsFirstRecursion};
ghost use Rattle.c_core.specs.Tree.{Program};
ghost use Rattle.c_meaning.specs.Run as runs;
ghost use Rattle.c_meaning.specs.declared.run.End.TheVariants.{Spent};
ghost use Rattle.flow_code.specs.Programs.{IsCodeOf};
ghost use Rattle.flow_machine.specs.Fronts.{BreaksOff};
ghost use Rattle.flow_machine.specs.Rooms.{NeedsAtMost};
ghost use Rattle.flow_machine.specs.Runs.{Advances};

use crate::beginning::first_cells;
use crate::compiled::Code;
use crate::control::{Control, Running, reserve_all};
use crate::stepping::go;
use c_meaning::{Choices, End, Run, Watcher, larger_budget_continues};
use flow_code::Code as Operations;
use flow_laws::code_is_simulated;
use flow_rooms::{chains_are_bounded, rooms_are_bounded, rooms_are_kept};
use run_state::{Halt, all_left};
use std::alloc::Global;
use std::marker::Model;
use wv_base::{OutOfMemory, Seq};

/// A run of a program as code.
///
/// Example: `stepped` in `crates/flow_tests/src/runs.rt`.
#[derive(Drop)]
pub struct Machine<'a> {
    code: &'a Operations,
    choices: &'a Choices,
    control: Control,
    run: Running,
    /// The steps handed to `advance`, and those of them that were taken.
    sum: u64,
    taken: u64,
    /// How the run has ended, but by a spent budget.
    ended: Option<End>,
    /// A `reserve` has answered Ok.
    reserved: bool,
    /// No `advance` has answered want of memory.
    whole: bool,
}

impl<'a> Model for Machine<'a> {
    ghost use Rattle.std.specs.Prelude.{◌≡◌, vec_capacity, true};
    ghost use Rattle.flow_machine.specs.Runs.{Held, IsSound};

    ghost Value = { Held };

    ghost view = { λ m. record { code = m.code.now; choices = m.choices.now; sum = m.sum; cells = m.run.memory.room; draws = vec_capacity m.run.draws; reserved = m.reserved; whole = m.whole } };

    ghost invariant = { λ m. IsSound m.code.now m.choices.now m.sum m.taken m.ended m.reserved m.whole m.control m.run };
}

impl<'a> Machine<'a> {
    /// Before the first step.
    pub fn new(
        alloc: Global,
        code: &'a Code,
        choices: &'a Choices,
    ) -> Result<Machine<'a>, OutOfMemory>
        ensures { IfOk result (λ m. (m.code ≡ code.now) × (m.choices ≡ choices.now) × (m.sum ≡ 0) × (m.whole ≡ true)) }
    {
        let code = &code.operations;
        let memory = first_cells(alloc, code)?;
        let left = all_left(alloc, choices)?;
        Ok(Machine {
            code,
            choices,
            control: Control {
                at: code.main as usize,
                paid: 0,
                stack: Vec::new(alloc),
                scopes: Vec::new(alloc),
                frames: Vec::new(alloc),
            },
            run: Running {
                steps: 0,
                memory,
                active: 0,
                left,
                draws: Vec::new(alloc),
                unfixed: 0,
            },
            sum: 0,
            taken: 0,
            ended: None,
            reserved: false,
            whole: true,
        })
    }

    /// Makes room for so many cells and draws in all, and for all that a run without recursion needs besides.
    pub fn reserve(&mut self, cells: u32, draws: u32) -> Result<(), OutOfMemory>
        ensures same { (self.new.code ≡ self.old.code) × (self.new.choices ≡ self.old.choices)
            × (self.new.sum ≡ self.old.sum) × (self.new.whole ≡ self.old.whole) }
        ensures rooms { (self.old.cells ≤ self.new.cells) × (self.old.draws ≤ self.new.draws) }
        ensures ok { OnOk result ((cells ≤ self.new.cells) × (draws ≤ self.new.draws) × (self.new.reserved ≡ true)) }
        ensures kept { self.old.reserved ≡ true → self.new.reserved ≡ true }
    {
        self.run.memory.reserve(cells)?;
        reserve_all(&mut self.run.draws, draws as usize)?;
        let code = self.code;
        reserve_all(&mut self.control.frames, code.functions.len())?;
        reserve_all(&mut self.control.scopes, code.ops.len())?;
        reserve_all(&mut self.control.stack, code.ops.len().saturating_mul(2))?;
        self.reserved = true;
        Ok(())
    }

    /// Takes at most so many further steps, and says how the run with all steps so far ends: it is spent and goes on
    /// with the next call, or later calls give its end again. Where memory runs out, the watcher has seen the first of
    /// the events that follow, each once; the machine is then only to be dropped, and a further call shows nothing.
    /// Memory suffices where a `reserve` has answered Ok, the program has no recursion, the watcher never runs out of
    /// memory, and the cells and draws of the run from here on are within the machine's rooms.
    pub fn advance<W: Watcher>(&mut self, steps: u64, watcher: &mut W) -> Result<End, OutOfMemory>
        requires within { self.old.sum + steps < 2 ^ 64 }
        ensures same { (self.new.code ≡ self.old.code) × (self.new.choices ≡ self.old.choices)
            × (self.new.reserved ≡ self.old.reserved) × (self.new.sum ≡ self.old.sum + steps) }
        ensures rooms { (self.old.cells ≤ self.new.cells) × (self.old.draws ≤ self.new.draws) }
        ensures whole { OnOk result (self.new.whole ≡ self.old.whole) }
        ensures lost { OnErr result (self.new.whole ≡ false) }
        ensures gone { self.old.whole ≡ false → IsErr result }
        ensures run { IfOk result (λ end. self.old.whole ≡ true → (p : Program) → IsCodeOf p self.old.code
            → Advances p self.old.choices self.old.sum self.new.sum W.after (W.seen watcher.old) (W.seen watcher.new)
            end) }
        ensures front { OnErr result (self.old.whole ≡ true → (p : Program) → IsCodeOf p self.old.code
            → BreaksOff p self.old.choices self.old.sum self.new.sum W.after (W.seen watcher.old)
            (W.seen watcher.new)) }
        ensures silent { self.old.whole ≡ false → W.seen watcher.new ≡ W.seen watcher.old }
        ensures again { self.old.whole ≡ true → (p : Program) → IsCodeOf p self.old.code
            → ((runs.Run p self.old.choices self.old.sum).end ≡ Spent → ⊥) → IsOk result }
        ensures enough { W.sure → self.old.reserved ≡ true → self.old.whole ≡ true → (p : Program)
            → IsCodeOf p self.old.code → IsFirstRecursion p None → NeedsAtMost self.old.code self.old.choices
            (self.old.sum + steps) steps self.old.cells self.old.draws → IsOk result }
    {
        chains_are_bounded();
        rooms_are_bounded();
        rooms_are_kept();
        code_is_simulated();
        larger_budget_continues();
        self.sum += steps;
        if !self.whole {
            return Err(OutOfMemory);
        }
        if let Some(end) = self.ended {
            return Ok(end);
        }
        self.run.steps = steps;
        let halt = go(self.code, &mut self.control, &mut self.run, watcher);
        match halt {
            Halt::NoMemory => {
                self.whole = false;
                Err(OutOfMemory)
            }
            Halt::Ends(end) => {
                self.taken = self.taken.saturating_add(steps - self.run.steps);
                match end {
                    End::Spent => Ok(End::Spent),
                    _ => {
                        self.ended = Some(end);
                        Ok(end)
                    }
                }
            }
        }
    }

    /// The run so far.
    pub fn finish(self) -> Run
        ensures { (p : Program) → IsCodeOf p self.entry.code → self.entry.whole ≡ true → result
            ≡ runs.Run p self.entry.choices self.entry.sum }
    {
        code_is_simulated();
        let Machine {
            run,
            taken,
            ended,
            ..
        } = self;
        Run {
            end: match ended {
                Some(end) => end,
                None => End::Spent,
            },
            steps: taken,
            draws: Seq::from_vec(run.draws),
            unfixed: run.unfixed,
        }
    }
}
