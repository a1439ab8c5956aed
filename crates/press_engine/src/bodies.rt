//! The bodies that run, between two steps (PCL 5 Printer Language Technical Reference Manual, Macros).

use crate::activation::Activation;
use crate::machine::{Last, Machine};
use crate::step_output::StepOutput;
use press_cmd::{Command, Kind, kind};
use std::alloc::{AllocError, Global};
use std::marker::Model;

/// The bodies that run, the innermost last, of which that one has a command. Contracts see the list of them, the innermost
/// first.
#[derive(Drop)]
pub struct Bodies {
    activations: Vec<Activation>,
}

impl Model for Bodies {
    ghost use Rattle.std.specs.Prelude.{List, reverse};
    ghost use Rattle.std.specs.Coded.{codes};
    ghost use Rattle.press_engine.specs.Stack.{IsSound};
    ghost use Rattle.press_engine.specs.declared.activation.Activation.{Activation};
    ghost use Rattle.press_engine.specs.contracts.activation.Activation as activation;

    ghost Value = { List Activation };

    ghost coded = { Prim.hlevel (codes, activation.the_row.coded) };

    ghost view = { λ bodies. reverse bodies.activations.items };

    ghost invariant = { λ bodies. IsSound (reverse bodies.activations.items) };
}

impl Last {
    ghost use Rattle.std.specs.Prelude.{◌≢◌};
    ghost use Rattle.press_engine.specs.Engine.{IsOfKind};

    /// The kind of the command that the last step took, where there was a step.
    fn kind(self) -> Kind
        requires { self ≢ Last.Nothing }
        ensures { IsOfKind self result }
    {
        match self {
            Last::Ran(kind) | Last::Recorded(kind) | Last::Refused(kind, _) => kind,
            Last::Nothing => unreachable!(),
        }
    }
}

impl Bodies {
    ghost use Rattle.std.specs.Prelude.{◌≡◌, ◌≢◌, ◌≤◌, ◌↔◌, [], length, IfOk, IsTrue, IsErr, MatchResult};
    ghost use Rattle.press_cmd.specs.View.{token};
    ghost use Rattle.press_cmd.specs.Kinds.{kind_of};
    ghost use Rattle.press_table.specs.declared.effect.Source.TheVariants.{Stream};
    ghost use Rattle.press_table.specs.Memory.{TakesMemory};
    ghost use Rattle.press_engine.specs.Engine.{StepsTo, InnerTakesMemory};
    ghost use Rattle.press_engine.specs.TraceLaws.{most_bodies};
    ghost use Rattle.press_engine.specs.Running.{RunsTo, ComesToTakeMemory};
    ghost use Rattle.press_engine.specs.Machine.{macro_levels};
    ghost use Rattle.press_engine.specs.Stack.{HasNext, IsReady, continuation};
    ghost use Rattle.press_table.specs.Table.{effect_on};
    ghost use Rattle.press_engine.specs.Trace.{trace_at};

    /// No body runs.
    pub fn none(alloc: Global) -> Self
        ensures { result ≡ [] }
    {
        Bodies {
            activations: Vec::new(alloc),
        }
    }

    /// Equal bodies, which share the commands.
    pub fn copy(&self) -> Result<Self, AllocError>
        ensures { IfOk result (λ bodies. bodies ≡ self.now) }
    {
        Ok(Bodies {
            activations: self.activations.clone()?,
        })
    }

    /// Whether no body runs.
    pub fn is_empty(&self) -> bool
        ensures empty { IsTrue result ↔ (self.now ≡ []) }
        ensures few { length self.now ≤ most_bodies }
        ensures ready { IsReady self.now }
    {
        self.activations.is_empty()
    }

    /// Takes a command of the stream, where no body runs, and answers what goes out. Where memory ran out no body runs.
    #[inline(always)]
    pub fn step(
        &mut self,
        machine: &mut Machine,
        alloc: Global,
        command: Command<'_>,
    ) -> Result<StepOutput, AllocError>
        requires none { self.old ≡ [] }
        ensures steps { MatchResult result
            (λ step. StepsTo (trace_at macro_levels (token command.entry) machine.old) step
            machine.new self.new)
            (λ _. self.new ≡ []) }
        ensures kind { IfOk result (λ step. step.kind ≡ kind_of (token command.entry)) }
        ensures memory { IsErr result
            → TakesMemory (effect_on Stream (token command.entry) machine.old.state) }
    {
        let kind = kind(&command);
        match machine.step_outer(alloc, command, &mut self.activations) {
            Ok(sent) => Ok(StepOutput { kind, sent }),
            Err(error) => {
                self.activations.clear();
                Err(error)
            }
        }
    }

    /// Takes the first command of the innermost body, and answers what goes out. Where memory ran out no body runs.
    #[inline(always)]
    pub fn step_inner(
        &mut self,
        machine: &mut Machine,
        alloc: Global,
    ) -> Result<StepOutput, AllocError>
        requires running { self.old ≢ [] }
        ensures steps { MatchResult result
            (λ step. StepsTo (continuation self.old machine.old) step machine.new self.new)
            (λ _. self.new ≡ []) }
        ensures next { HasNext self.old }
        ensures memory { IsErr result → InnerTakesMemory self.old machine.old }
    {
        match machine.step_inner(alloc, &mut self.activations) {
            Ok(sent) => Ok(StepOutput {
                kind: machine.last.kind(),
                sent,
            }),
            Err(error) => {
                self.activations.clear();
                Err(error)
            }
        }
    }

    /// Takes the first commands of the innermost body at once, as long as each does no more than change the machine and another is left
    /// in it, and then a step, of which it answers what goes out. Where memory ran out no body runs.
    #[inline(always)]
    pub fn run_inner(
        &mut self,
        machine: &mut Machine,
        alloc: Global,
    ) -> Result<StepOutput, AllocError>
        requires running { self.old ≢ [] }
        ensures runs { MatchResult result
            (λ step. RunsTo self.old machine.old step machine.new self.new)
            (λ _. self.new ≡ []) }
        ensures memory { IsErr result → ComesToTakeMemory self.old machine.old }
    {
        match machine.run_inner(alloc, &mut self.activations) {
            Ok(sent) => Ok(StepOutput {
                kind: machine.last.kind(),
                sent,
            }),
            Err(error) => {
                self.activations.clear();
                Err(error)
            }
        }
    }
}
