// Sealing, unsealing, packing of keys and products, which need no draft and no station.
ghost use Rattle.std.specs.Prelude.{◌≡◌, IfOk};
ghost use Rattle.session.specs.Said.{said};
ghost use Rattle.session.specs.Tasks.{task_said};

use crate::answers::answer;
use packing::keys;
use ring::engine::RingEngine;
use ring::turning::Turning;
use script::answer::Answer;
use script::task::Task;
use sealing::feed;
use std::alloc::{AllocError, Global};

// Carries out a task; want of memory is the only error.
pub fn carry_out(heap: Global, task: Task) -> Result<Answer, AllocError>
    ensures { IfOk result (λ answer. said answer ≡ task_said task) }
{
    match task {
        Task::Seal {
            mut engine,
            width,
            key,
            noise,
            message,
            length,
        } => {
            let mut out = vec![in heap; 0u8; length]?;
            let reply = feed::seal(
                &mut engine,
                width,
                key.as_slice(),
                noise.as_slice(),
                message.as_slice(),
                out.as_mut_slice(),
            );
            Ok(answer(reply, Answer::Bytes(out)))
        }
        Task::Unseal {
            mut engine,
            width,
            f,
            bytes: sealed,
            length,
        } => {
            let mut out = vec![in heap; 0u8; length]?;
            let reply = feed::unseal(
                &mut engine,
                width,
                f.as_slice(),
                sealed.as_slice(),
                out.as_mut_slice(),
            );
            Ok(answer(reply, Answer::Bytes(out)))
        }
        Task::Pack {
            degree,
            row,
            length,
        } => {
            let mut out = vec![in heap; 0u8; length]?;
            let reply = keys::pack_key(degree, row.as_slice(), out.as_mut_slice());
            Ok(answer(reply, Answer::Bytes(out)))
        }
        Task::Unpack {
            degree,
            bytes,
            length,
        } => {
            let mut out = vec![in heap; 0u16; length]?;
            let reply = keys::unpack_key(degree, bytes.as_slice(), out.as_mut_slice());
            Ok(answer(reply, Answer::Row(out)))
        }
        Task::Multiply {
            mut engine,
            left,
            right,
            length,
        } => {
            let mut out = vec![in heap; 0u16; length]?;
            let reply = engine.multiply(left.as_slice(), right.as_slice(), out.as_mut_slice());
            Ok(answer(reply, Answer::Row(out)))
        }
    }
}
