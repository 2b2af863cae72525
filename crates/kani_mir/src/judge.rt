ghost use Rattle.std.specs.Prelude.{◌≤◌, IfOk, length};
ghost use Rattle.typed_program.specs.WellTyped.{IsWellTyped};
ghost use Rattle.kani_mir.specs.Command.{IsJudged};
ghost use Rattle.kani_mir.specs.Told.{IsTold};

use crate::answer::Answer;
use crate::built::is_built;
use crate::units::reports_of;
use front_end::typed_of;
use mir_program::Program;
use sat_core::Effort;
use std::alloc::Global;
use vk_core::NoMemory;

/// What there is to tell of a text and a declaration file.
pub fn judge(
    alloc: Global,
    mir: &[u8],
    declarations: &[u8],
    effort: &mut Effort,
) -> Result<Answer, NoMemory>
    requires { length mir.now ≤ 4194304 }
    ensures answer { IfOk result (IsJudged mir.now declarations.now) }
    ensures later { effort.old ≤ effort.new }
{
    match typed_of(alloc, mir, declarations)? {
        Err(refusal) => Ok(Answer::Refused(refusal)),
        Ok(typed) => {
            let answer = tell(alloc, typed.program(), effort)?;
            Ok(answer)
        }
    }
}

/// What there is to tell of a program.
fn tell(alloc: Global, program: &Program, effort: &mut Effort) -> Result<Answer, NoMemory>
    requires { IsWellTyped program.now }
    ensures answer { IfOk result (IsTold program.now) }
    ensures later { effort.old ≤ effort.new }
{
    if is_built(program) {
        let reports = reports_of(alloc, program, effort)?;
        Ok(Answer::Report(reports))
    } else {
        Ok(Answer::NotBuilt)
    }
}
