//! The row of PJL lines.

use crate::effect::{Effect, PageChange};
use crate::state::State;
use press_pjl::PjlEffect;
use std::alloc::{AllocError, Global};

impl State {
    ghost use Rattle.std.specs.Prelude.{◌≡◌, IfOk, IsErr};
    ghost use Rattle.press_table.specs.Effects.{effect_of};
    ghost use Rattle.press_table.specs.Memory.{TakesMemory};
    ghost use Rattle.press_table.specs.JobLanguage.{job_language};

    /// A PJL line: it has a reply, or acts as the universal exit and then resets by new values, or changes the job
    /// language's environment alone.
    pub(crate) fn job_language(&mut self, alloc: Global, line: &[u8]) -> Result<Effect, AllocError>
        ensures effect { IfOk result (λ effect.
            effect_of self.new effect ≡ job_language line.now self.old) }
        ensures memory { IsErr result → TakesMemory (job_language line.now self.old) }
    {
        let mut language = self.language;
        let PjlEffect { resets, job, reply } = language.line(alloc, line, &self.facts())?;
        if !reply.as_slice().is_empty() {
            self.language = language;
            return Ok(Effect::GivesReply(reply));
        }
        if resets {
            return Ok(self.reset_by(PageChange::Language {
                language,
                begins_job: job,
            }));
        }
        self.language = language;
        Ok(Effect::Changes)
    }
}
