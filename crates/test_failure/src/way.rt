// In which way a run went.

use px_bytes::{M, Seq, Text, Texts};
use std::alloc::Global;
use test_orders::Cut;

/// Adds how the texts were cut, and in which orders what is done together happened, where they aren't
/// as they are written.
pub fn add_way(alloc: Global, lines: &mut Texts, cut: Cut, orders: &[Seq<usize>]) -> M<()> {
    match cut {
        Cut::Whole => {}
        Cut::Bytes => lines.push(Text::new(alloc, b"all texts went byte by byte")?)?,
        Cut::At { send, place } => {
            let number = send.saturating_add(1);
            let line = format!(in alloc; "text {number} was cut behind byte {place}")?;
            lines.push(Text::new(alloc, line.as_bytes())?)?;
        }
    }
    add_orders(alloc, lines, orders)
}

fn add_orders(alloc: Global, lines: &mut Texts, orders: &[Seq<usize>]) -> M<()> {
    for order in orders {
        if !is_written(order.as_slice()) {
            lines.push(order_line(alloc, order.as_slice())?)?;
        }
    }
    Ok(())
}

fn is_written(order: &[usize]) -> bool {
    order.iter().enumerate().all(|(at, number)| at == *number)
}

fn order_line(alloc: Global, order: &[usize]) -> M<Text> {
    let mut line = Text::new(alloc, b"what is done together went in the order")?;
    for number in order {
        let number = number.saturating_add(1);
        line.push(format!(in alloc; " {number}")?.as_bytes())?;
    }
    Ok(line)
}
