//! A guess of which nodes lead to themselves. No clause speaks of it, since it is checked afterwards.

use crate::cycles::edge_at;
use crate::hint::Hint;
use std::alloc::{AllocError, Global};

fn read(numbers: &[usize], at: usize) -> usize {
    match numbers.get(at) {
        None => 0,
        Some(number) => *number,
    }
}

fn write(numbers: &mut Vec<usize>, at: usize, number: usize) {
    if let Some(place) = numbers.get_mut(at) {
        *place = number;
    }
}

/// A search in depth: of each node its number by first visit from 1, the least number that it reaches, its component,
/// and the step by which it was entered.
#[derive(Drop)]
struct Search {
    index: Vec<usize>,
    low: Vec<usize>,
    component: Vec<usize>,
    root: Vec<usize>,
    enter: Vec<usize>,
    enter_at: Vec<usize>,
    open: Vec<usize>,
    work: Vec<(usize, usize)>,
    counter: usize,
    components: usize,
}

impl Search {
    fn new(alloc: Global, n: usize) -> Result<Search, AllocError> {
        Ok(Search {
            index: vec![in alloc; 0; n]?,
            low: vec![in alloc; 0; n]?,
            component: vec![in alloc; 0; n]?,
            root: vec![in alloc; 0; n]?,
            enter: vec![in alloc; 0; n]?,
            enter_at: vec![in alloc; 0; n]?,
            open: Vec::new(alloc),
            work: Vec::new(alloc),
            counter: 0,
            components: 0,
        })
    }

    fn visit(&mut self, node: usize, from: usize, at: usize) -> Result<(), AllocError> {
        self.counter = self.counter.saturating_add(1);
        write(&mut self.index, node, self.counter);
        write(&mut self.low, node, self.counter);
        write(&mut self.enter, node, from);
        write(&mut self.enter_at, node, at);
        self.open.push(node)?;
        self.work.push((node, 0))?;
        Ok(())
    }

    fn lower(&mut self, node: usize, number: usize) {
        if number < read(self.low.as_slice(), node) {
            write(&mut self.low, node, number);
        }
    }

    /// The component of a node is whole.
    fn close(&mut self, root: usize) {
        self.components = self.components.saturating_add(1);
        for _ in 0..u64::MAX {
            match self.open.pop() {
                None => break,
                Some(node) => {
                    write(&mut self.component, node, self.components);
                    write(&mut self.root, node, root);
                    if node == root {
                        break;
                    }
                }
            }
        }
    }

    fn leave(&mut self, node: usize) {
        let low = read(self.low.as_slice(), node);
        if low == read(self.index.as_slice(), node) {
            self.close(node);
        }
        if let Some(above) = self.work.last().copied() {
            self.lower(above.0, low);
        }
    }

    fn go(&mut self, graph: &[Vec<usize>]) -> Result<(), AllocError> {
        for _ in 0..u64::MAX {
            match self.work.pop() {
                None => break,
                Some((node, at)) => match edge_at(graph, node, at) {
                    None => self.leave(node),
                    Some(to) => {
                        self.work.push((node, at.saturating_add(1)))?;
                        if read(self.index.as_slice(), to) == 0 {
                            self.visit(to, node, at)?;
                        } else if read(self.component.as_slice(), to) == 0 {
                            let number = read(self.index.as_slice(), to);
                            self.lower(node, number);
                        }
                    }
                },
            }
        }
        Ok(())
    }
}

/// For each node the steps that lead to it from its own component, each as the node and the place in its row.
fn back_steps(
    alloc: Global,
    graph: &[Vec<usize>],
    component: &[usize],
) -> Result<Vec<Vec<(usize, usize)>>, AllocError> {
    let mut back: Vec<Vec<(usize, usize)>> = Vec::new(alloc);
    for _ in 0..graph.len() {
        back.push(Vec::new(alloc))?;
    }
    for node in 0..graph.len() {
        for at in 0..u64::MAX as usize {
            match edge_at(graph, node, at) {
                None => break,
                Some(to) => {
                    if read(component, node) == read(component, to) {
                        if let Some(row) = back.get_mut(to) {
                            row.push((node, at))?;
                        }
                    }
                }
            }
        }
    }
    Ok(back)
}

/// How far each node is from its root, and the step by which it is nearer.
#[derive(Drop)]
struct Ways {
    far: Vec<usize>,
    leave_at: Vec<usize>,
    on: Vec<usize>,
}

fn find_ways(
    alloc: Global,
    n: usize,
    root: &[usize],
    back: &[Vec<(usize, usize)>],
) -> Result<Ways, AllocError> {
    let mut found = Ways {
        far: vec![in alloc; 0; n]?,
        leave_at: vec![in alloc; 0; n]?,
        on: vec![in alloc; 0; n]?,
    };
    let mut queue: Vec<usize> = Vec::new(alloc);
    for node in 0..n {
        if read(root, node) == node {
            queue.push(node)?;
        }
    }
    for turn in 0..u64::MAX as usize {
        match queue.get(turn).copied() {
            None => break,
            Some(to) => {
                if let Some(row) = back.get(to) {
                    for step in row {
                        let (node, at) = *step;
                        if read(found.on.as_slice(), node) == 0 {
                            write(&mut found.on, node, 1);
                            write(&mut found.leave_at, node, at);
                            if read(root, node) != node {
                                let far = read(found.far.as_slice(), to).saturating_add(1);
                                write(&mut found.far, node, far);
                                queue.push(node)?;
                            }
                        }
                    }
                }
            }
        }
    }
    Ok(found)
}

/// Guesses which nodes are on cycles, and what shows it.
pub fn guess(alloc: Global, graph: &[Vec<usize>]) -> Result<Vec<Hint>, AllocError> {
    let mut search = Search::new(alloc, graph.len())?;
    for node in 0..graph.len() {
        if read(search.index.as_slice(), node) == 0 {
            search.visit(node, node, 0)?;
            search.go(graph)?;
        }
    }
    let back = back_steps(alloc, graph, search.component.as_slice())?;
    let found = find_ways(alloc, graph.len(), search.root.as_slice(), back.as_slice())?;
    let mut hints = Vec::new(alloc);
    for node in 0..graph.len() {
        hints.push(Hint {
            is_on: read(found.on.as_slice(), node) == 1,
            rank: read(search.component.as_slice(), node),
            root: read(search.root.as_slice(), node),
            near: read(search.index.as_slice(), node),
            enter: read(search.enter.as_slice(), node),
            enter_at: read(search.enter_at.as_slice(), node),
            far: read(found.far.as_slice(), node),
            leave_at: read(found.leave_at.as_slice(), node),
        })?;
    }
    Ok(hints)
}
