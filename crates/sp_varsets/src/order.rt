//! An order of blocks in which calls carry the most.

use sp_base::List;
use sp_tree::Block;
use std::alloc::Global;

/// The blocks in the order in which their statement parts end: inner ones first. Any order serves, also one that lacks
/// blocks because memory was refused. In this one only a call of the block itself or of a block around it goes back.
pub(crate) fn inner_first(alloc: Global, blocks: &[Block]) -> List<u32> {
    let mut order = List::new(alloc);
    let mut last = None;
    let mut number = 0u32;
    for block in blocks {
        close_up(&mut order, blocks, last, block.parent);
        last = Some(number);
        number = number.wrapping_add(1);
    }
    close_up(&mut order, blocks, last, None);
    order
}

// Puts a block and those around it into the order, up to this one.
fn close_up(order: &mut List<u32>, blocks: &[Block], from: Option<u32>, parent: Option<u32>) {
    let mut at = from;
    'open: for _level in 0..blocks.len() {
        if at == parent {
            return;
        }
        match at {
            Some(number) => {
                let _done = order.push(number);
                at = match blocks.get(number as usize) {
                    Some(block) => block.parent,
                    None => None,
                };
            }
            None => return,
        }
    }
}
