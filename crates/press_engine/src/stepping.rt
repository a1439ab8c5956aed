//! Table steps, as values: each takes one command, of the stream or of the innermost body that runs, and answers what goes out
//! (PCL 5 Printer Language Technical Reference Manual, Macros). No sink is known here.

ghost use Rattle.std.specs.Prelude.{◌≡◌, reverse};
ghost use Rattle.press_engine.specs.Begun.{source_in};
ghost use Rattle.press_engine.specs.Stepping.{is_top_used_up};

use crate::activation::{Activation, ActivationEnd};
use crate::machine::{MACRO_LEVELS, Machine, OVERLAY_LEVELS, source_at};
use press_cmd::{Body, Command};
use press_cursor::CursorPosition;
use press_table::{BodyStart, Effect, EjectCause, SavedEnvironment, Sent, Source};
use std::alloc::{AllocError, Global};

/// Where the commands of a body come from.
fn source_in(in_overlay: bool, macro_levels: u8) -> Source
    ensures { result ≡ source_in in_overlay macro_levels }
{
    if in_overlay {
        Source::Overlay
    } else {
        source_at(macro_levels)
    }
}

/// Whether the innermost body is used up.
fn is_top_used_up(activations: &[Activation]) -> bool
    ensures { result ≡ is_top_used_up (reverse activations.now) }
{
    match activations.last() {
        Some(activation) => activation.body.is_used_up(),
        None => false,
    }
}

impl Machine {
    ghost use Rattle.std.specs.Prelude.{◌≡◌, ◌≢◌, ◌⊎◌, suc, [], ◌∷◌, List, reverse, IfOk, OnOk, IsErr};
    ghost use Rattle.press_cmd.specs.Token.{Token};
    ghost use Rattle.press_table.specs.Calls.{overlay_body, end_of};
    ghost use Rattle.press_table.specs.Effects.{effect_of};
    ghost use Rattle.press_table.specs.Memory.{TakesMemory};
    ghost use Rattle.press_engine.specs.Engine.{InnerTakesMemory};
    ghost use Rattle.press_engine.specs.Machine.{silent, then_run, leave_overlay};
    ghost use Rattle.press_engine.specs.declared.activation.Activation.{Activation};
    ghost use Rattle.press_cmd.specs.View.{token};
    ghost use Rattle.press_engine.specs.Begun.{begun, begun_body, begun_only, begun_close, end_by};
    ghost use Rattle.press_engine.specs.Stack.{HasNext, IsOverlayEnd, EndsOverlay};
    ghost use Rattle.press_table.specs.Outputs.{all_outputs};
    ghost use Rattle.press_table.specs.declared.effect.Source.TheVariants.{Stream};
    ghost use Rattle.press_engine.specs.Stepping.{begun_over, begun_by, first_effect, TakesFirst, finished, LeavesWork, MayTakeMemory, run_of};
    ghost use Rattle.press_engine.specs.Stepping.{stepped_of, unwind, step_outer, step_inner};
    ghost use Rattle.press_engine.specs.Running.{TakesOn, ComesToTake, RunsThrough, ComesToTakeMemory};
    ghost use Rattle.press_table.specs.Table.{effect_on};

    /// Takes the first command that is left of a body. It answers the effect of one that does more than change the machine.
    #[inline(always)]
    fn take_first(
        &mut self,
        alloc: Global,
        activation: &mut Activation,
    ) -> Result<Option<Effect>, AllocError>
        requires { activation.old.body ≢ [] }
        ensures takes { IfOk result (λ effect. (command : Token) (rest : List Token)
            → activation.old.body ≡ command ∷ rest
            → TakesFirst activation.old command self.old effect self.new
            × (activation.new ≡ record activation.old { body = rest })) }
        ensures memory { IsErr result → (command : Token) (rest : List Token)
            → activation.old.body ≡ command ∷ rest
            → TakesMemory (first_effect activation.old command self.old.state) }
    {
        let source = source_in(activation.in_overlay, activation.macro_levels);
        match activation.body.next() {
            Some(command) => {
                if self.change(alloc, &command)? {
                    return Ok(None);
                }
                Ok(Some(self.take(alloc, source, &command)?))
            }
            None => unreachable!(),
        }
    }

    /// Takes the first commands that are left of a body, as long as each does no more than change the machine and another is left, and
    /// then one more. It answers the effect of that one, if it does more.
    fn take_on(
        &mut self,
        alloc: Global,
        activation: &mut Activation,
    ) -> Result<Option<Effect>, AllocError>
        requires { activation.old.body ≢ [] }
        ensures takes { IfOk result (λ effect.
            TakesOn activation.old self.old effect activation.new self.new) }
        ensures memory { IsErr result → ComesToTake activation.old self.old }
    {
        loop {
            let effect = self.take_first(alloc, activation)?;
            if effect.is_some() || activation.body.is_used_up() {
                return Ok(effect);
            }
        }
    }

    /// The body of a macro starts.
    fn begin_body(
        &mut self,
        in_overlay: bool,
        macro_levels: u8,
        body: Body,
        start: BodyStart,
    ) -> Activation
        ensures { record { item = silent self.new; started = result ∷ [] }
            ≡ begun_body in_overlay (suc macro_levels) body (end_of start self.old.state)
            self.old.state self.old }
    {
        let depth = self.depth;
        let end = self.state.end_of(start);
        self.enter_body(&end);
        Activation {
            body,
            in_overlay,
            macro_levels,
            depth,
            end: ActivationEnd::Macro(end),
        }
    }

    /// A page closes, or the overlay starts before it.
    fn begin_close(
        &mut self,
        alloc: Global,
        cause: EjectCause,
        activations: &mut Vec<Activation>,
        out: &mut Vec<Sent>,
    ) -> Result<(), AllocError>
        ensures { OnOk result (stepped_of self.new out.new.items (reverse activations.new.items)
            ≡ begun_over (begun_close (overlay_body self.old.state) cause self.old)
            out.old.items (reverse activations.old.items)) }
    {
        let Some(body) = self.state.overlay_body()? else {
            return self.state.finish_effect(alloc, Effect::Closes(cause), out);
        };
        let depth = self.depth;
        let kept = self.state.kept();
        let position = self.state.cursor.position();
        self.state.start_overlay();
        self.depth = depth.saturating_add(1);
        activations.push(Activation {
            body,
            in_overlay: true,
            macro_levels: OVERLAY_LEVELS,
            depth,
            end: ActivationEnd::Close {
                cause,
                kept,
                position,
            },
        })?;
        Ok(())
    }

    /// What an effect begins: the body that it starts is the innermost, and what goes out comes behind what went out before.
    fn begin(
        &mut self,
        alloc: Global,
        in_overlay: bool,
        macro_levels: u8,
        effect: Effect,
        activations: &mut Vec<Activation>,
        out: &mut Vec<Sent>,
    ) -> Result<(), AllocError>
        ensures begins { OnOk result (stepped_of self.new out.new.items
            (reverse activations.new.items)
            ≡ begun_over (begun in_overlay macro_levels self.old (effect_of self.old.state effect))
            out.old.items (reverse activations.old.items)) }
        ensures memory { IsErr result → TakesMemory (effect_of self.old.state effect) }
    {
        match effect {
            Effect::Starts(body, start) => {
                if macro_levels > 0 {
                    let started = self.begin_body(in_overlay, macro_levels - 1, body, start);
                    activations.push(started)?;
                }
                Ok(())
            }
            _ if in_overlay => Ok(()),
            Effect::Closes(cause) => self.begin_close(alloc, cause, activations, out),
            other => self.state.finish_effect(alloc, other, out),
        }
    }

    /// An overlay is used up.
    fn end_overlay(&mut self, kept: SavedEnvironment, position: CursorPosition, depth: u8)
        ensures { self.new ≡ leave_overlay kept position depth self.old }
    {
        self.state.end_overlay(kept, position);
        self.depth = depth;
    }

    /// A body is used up.
    fn end_activation(
        &mut self,
        alloc: Global,
        end: ActivationEnd,
        depth: u8,
        out: &mut Vec<Sent>,
    ) -> Result<(), AllocError>
        ensures ends { OnOk result (run_of self.new out.new.items
            ≡ then_run (all_outputs out.old.items) (end_by end depth self.old)) }
        ensures overlay { IsErr result → IsOverlayEnd end }
    {
        match end {
            ActivationEnd::Macro(end) => {
                self.leave_body(end, depth);
                Ok(())
            }
            ActivationEnd::Close {
                cause,
                kept,
                position,
            } => {
                self.end_overlay(kept, position, depth);
                self.state.finish_effect(alloc, Effect::Closes(cause), out)
            }
        }
    }

    /// Ends the bodies that are used up, the innermost first.
    fn end_bodies(
        &mut self,
        alloc: Global,
        activations: &mut Vec<Activation>,
        out: &mut Vec<Sent>,
    ) -> Result<(), AllocError>
        ensures ends { OnOk result (stepped_of self.new out.new.items
            (reverse activations.new.items)
            ≡ unwind (reverse activations.old.items) (run_of self.old out.old.items)) }
        ensures overlay { IsErr result → EndsOverlay (reverse activations.old.items) }
    {
        while is_top_used_up(activations) {
            let Some(activation) = activations.pop() else {
                return Ok(());
            };
            self.end_activation(alloc, activation.end, activation.depth, out)?;
        }
        Ok(())
    }

    /// The rest of a step in which not all is done. It stands apart from the others, which need no room for what it begins.
    #[inline(never)]
    fn go_on(
        &mut self,
        alloc: Global,
        in_overlay: bool,
        macro_levels: u8,
        effect: Effect,
        activations: &mut Vec<Activation>,
    ) -> Result<Vec<Sent>, AllocError>
        ensures steps { IfOk result (λ out.
            stepped_of self.new out.items (reverse activations.new.items)
            ≡ finished (begun in_overlay macro_levels self.old (effect_of self.old.state effect))
            (reverse activations.old.items)) }
        ensures memory { IsErr result → TakesMemory (effect_of self.old.state effect)
            ⊎ LeavesWork (begun in_overlay macro_levels self.old (effect_of self.old.state effect))
            (reverse activations.old.items) }
    {
        let mut out = Vec::new(alloc);
        self.begin(
            alloc,
            in_overlay,
            macro_levels,
            effect,
            activations,
            &mut out,
        )?;
        self.end_bodies(alloc, activations, &mut out)?;
        Ok(out)
    }

    /// The rest of a step in which all is done: the bodies that are used up end.
    fn end_step(
        &mut self,
        alloc: Global,
        activations: &mut Vec<Activation>,
    ) -> Result<Vec<Sent>, AllocError>
        ensures steps { IfOk result (λ out.
            stepped_of self.new out.items (reverse activations.new.items)
            ≡ finished (begun_only (silent self.old)) (reverse activations.old.items)) }
        ensures memory { IsErr result → EndsOverlay (reverse activations.old.items) }
    {
        if !is_top_used_up(activations) {
            return Ok(Vec::new(alloc));
        }
        let mut out = Vec::new(alloc);
        self.end_bodies(alloc, activations, &mut out)?;
        Ok(out)
    }

    /// The rest of a step of a body, by the effect of its command, if that did more than change the machine.
    fn finish_step(
        &mut self,
        alloc: Global,
        in_overlay: bool,
        macro_levels: u8,
        effect: Option<Effect>,
        activations: &mut Vec<Activation>,
    ) -> Result<Vec<Sent>, AllocError>
        ensures steps { IfOk result (λ out.
            stepped_of self.new out.items (reverse activations.new.items)
            ≡ finished (begun_by in_overlay macro_levels effect self.old)
            (reverse activations.old.items)) }
        ensures memory { IsErr result → MayTakeMemory effect self.old.state
            ⊎ LeavesWork (begun_by in_overlay macro_levels effect self.old)
            (reverse activations.old.items) }
    {
        match effect {
            Some(effect) if !effect.is_done() => {
                self.go_on(alloc, in_overlay, macro_levels, effect, activations)
            }
            _ => self.end_step(alloc, activations),
        }
    }

    /// Takes a command of the stream, where no body runs.
    pub fn step_outer(
        &mut self,
        alloc: Global,
        command: Command<'_>,
        activations: &mut Vec<Activation>,
    ) -> Result<Vec<Sent>, AllocError>
        requires none { activations.old.items ≡ [] }
        ensures steps { IfOk result (λ out.
            stepped_of self.new out.items (reverse activations.new.items)
            ≡ step_outer (token command.entry) self.old) }
        ensures memory { IsErr result
            → TakesMemory (effect_on Stream (token command.entry) self.old.state) }
    {
        let effect = self.take(alloc, source_in(false, MACRO_LEVELS), &command)?;
        if effect.is_done() {
            return Ok(Vec::new(alloc));
        }
        self.go_on(alloc, false, MACRO_LEVELS, effect, activations)
    }

    /// Takes the first command of the innermost body.
    pub fn step_inner(
        &mut self,
        alloc: Global,
        activations: &mut Vec<Activation>,
    ) -> Result<Vec<Sent>, AllocError>
        requires running { HasNext (reverse activations.old.items) }
        ensures steps { IfOk result (λ out.
            (activation : Activation) (command : Token) (rest : List Token) (outer : List
            Activation)
            → reverse activations.old.items ≡ record activation { body = command ∷ rest } ∷ outer
            → stepped_of self.new out.items (reverse activations.new.items)
            ≡ step_inner activation command rest outer self.old) }
        ensures memory { IsErr result → InnerTakesMemory (reverse activations.old.items) self.old }
    {
        let innermost = activations.len() - 1;
        let activation = &mut activations[innermost];
        let in_overlay = activation.in_overlay;
        let macro_levels = activation.macro_levels;
        let effect = self.take_first(alloc, activation)?;
        self.finish_step(alloc, in_overlay, macro_levels, effect, activations)
    }

    /// Takes the first commands of the innermost body, as long as each does no more than change the machine and another is left in it,
    /// and then takes a step.
    pub fn run_inner(
        &mut self,
        alloc: Global,
        activations: &mut Vec<Activation>,
    ) -> Result<Vec<Sent>, AllocError>
        requires running { HasNext (reverse activations.old.items) }
        ensures runs { IfOk result (λ out. RunsThrough (reverse activations.old.items) self.old
            (stepped_of self.new out.items (reverse activations.new.items))) }
        ensures memory { IsErr result
            → ComesToTakeMemory (reverse activations.old.items) self.old }
    {
        let innermost = activations.len() - 1;
        let activation = &mut activations[innermost];
        let in_overlay = activation.in_overlay;
        let macro_levels = activation.macro_levels;
        let effect = self.take_on(alloc, activation)?;
        self.finish_step(alloc, in_overlay, macro_levels, effect, activations)
    }
}
