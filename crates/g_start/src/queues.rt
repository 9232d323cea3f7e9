//! The queues with which a run begins.

ghost use Rattle.std.specs.Prelude.{◌≡◌, ◌∷◌, ◌++◌, [], OnOk};
ghost use Rattle.std.specs.List.{All};
ghost use Rattle.g_types.specs.declared.ty.Ty.TheVariants as ty;
ghost use Rattle.g_values.specs.Spelled.{IsSpelled};
ghost use Rattle.g_shared.specs.Queues.{IsSize, new_queue};
ghost use Rattle.g_frames.specs.Contents as content;
ghost use Rattle.g_frames.specs.State.{first_queues};

use crate::count::next;
use g_frames::QueueName;
use g_objects::Object;
use g_queues::Queue;
use g_types::copy;
use std::alloc::{AllocError, Global};

fn push_queue(
    alloc: Global,
    objects: &mut Vec<Object>,
    number: u32,
    queue: &QueueName,
) -> Result<(), AllocError>
    requires { IsSpelled (ty.QueueRef queue.now.item) × IsSize queue.now.size }
    ensures { OnOk result (objects.new.items ≡ objects.old.items ++ content.Queue (new_queue number queue.now.item queue.now.size) ∷ []) }
{
    let item = copy(alloc, &queue.item)?;
    let object = Queue::new(alloc, number, item, queue.size);
    objects.push(Object::of_queue(object))?;
    Ok(())
}

/// Adds the queues, none of which is live.
pub fn push_queues(
    alloc: Global,
    objects: &mut Vec<Object>,
    queues: &[QueueName],
) -> Result<(), AllocError>
    requires { All (λ q. IsSpelled (ty.QueueRef q.item) × IsSize q.size) queues.now }
    ensures { OnOk result (objects.new.items ≡ objects.old.items ++ first_queues 0 queues.now) }
{
    let mut number = 0;
    for queue in queues {
        push_queue(alloc, objects, number, queue)?;
        number = next(number)?;
    }
    Ok(())
}
