// Asks a policy alone.
ghost use Rattle.std.specs.Prelude.{IfOk};
ghost use Rattle.optbook.specs.Answers.{Shared};

use crate::answer::Answer;
use policy::{Chosen, Policy};
use std::alloc::{AllocError, Global};

// Only memory can keep it from its answer.
pub fn share(heap: Global, policy: &Chosen, lots: u32, queue: &[u32]) -> Result<Answer, AllocError>
    ensures { IfOk result (λ a. Shared policy.now queue.now lots a) }
{
    let mut shares = vec![in heap; 0; queue.len()]?;
    let shared = policy.share(queue, lots, &mut shares);
    Ok(Answer::Shares(shared.map(|()| shares)))
}
