//! Nodes that wait at shared objects.

use crate::spot::Role;
use g_frames::FrameNode;
use std::alloc::{AllocError, Global};

/// Nodes that couldn't fire because of a shared object, by the object's number.
#[derive(Drop)]
pub(crate) struct Waiting {
    takers: Vec<Vec<FrameNode>>,
    putters: Vec<Vec<FrameNode>>,
}

fn no_nodes(alloc: Global, count: usize) -> Result<Vec<Vec<FrameNode>>, AllocError> {
    let mut rows: Vec<Vec<FrameNode>> = Vec::new(alloc);
    for _ in 0..count {
        rows.push(Vec::new(alloc))?;
    }
    Ok(rows)
}

fn add_to(rows: &mut Vec<Vec<FrameNode>>, object: usize, at: FrameNode) -> Result<(), AllocError> {
    if let Some(row) = rows.get_mut(object) {
        row.push(at)?;
    }
    Ok(())
}

fn wake_one(
    rows: &mut Vec<Vec<FrameNode>>,
    object: usize,
    hints: &mut Vec<FrameNode>,
) -> Result<(), AllocError> {
    let Some(row) = rows.get_mut(object) else {
        return Ok(());
    };
    if let Some(at) = row.pop() {
        hints.push(at)?;
    }
    Ok(())
}

fn wake_all(
    rows: &mut Vec<Vec<FrameNode>>,
    object: usize,
    hints: &mut Vec<FrameNode>,
) -> Result<(), AllocError> {
    let Some(row) = rows.get_mut(object) else {
        return Ok(());
    };
    for _ in 0..row.len() {
        if let Some(at) = row.pop() {
            hints.push(at)?;
        }
    }
    Ok(())
}

impl Waiting {
    /// No node waits, at so many objects.
    pub fn new(alloc: Global, count: usize) -> Result<Waiting, AllocError> {
        Ok(Waiting {
            takers: no_nodes(alloc, count)?,
            putters: no_nodes(alloc, count)?,
        })
    }

    /// Lets a node wait.
    pub fn add(&mut self, role: Role, at: FrameNode) -> Result<(), AllocError> {
        match role {
            Role::Takes(object) => add_to(&mut self.takers, object, at),
            Role::Puts(object) => add_to(&mut self.putters, object, at),
            Role::Ends(_) | Role::Other => Ok(()),
        }
    }

    /// After an operation, or in place of a node that no longer waits: one node that takes and one that puts may fire
    /// now, and all where a queue was released.
    pub fn wake(&mut self, role: Role, hints: &mut Vec<FrameNode>) -> Result<(), AllocError> {
        match role {
            Role::Takes(object) | Role::Puts(object) => {
                wake_one(&mut self.takers, object, hints)?;
                wake_one(&mut self.putters, object, hints)
            }
            Role::Ends(object) => {
                wake_all(&mut self.takers, object, hints)?;
                wake_all(&mut self.putters, object, hints)
            }
            Role::Other => Ok(()),
        }
    }
}
