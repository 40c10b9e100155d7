// Kind 21 of the replay protocol: a list of cut orders on a collector, into one destination.
#![tactic(auto)]

use cut_orders::Order;
use replay_collector::state::read_state;
use replay_io::output::Output;
use replay_io::{Malformed, Replay, room};
use std::io::Read;

// What an order's length is before the call.
const UNSET_LENGTH: u32 = 238;

fn read_orders<R: Read + Drop>(
    case: &mut Replay<R>,
    orders: &mut [Order],
) -> Result<(), Malformed> {
    for o in orders {
        o.begin = case.input.i32()?;
        o.end = case.input.i32()?;
    }
    Ok(())
}

fn put_order(out: &mut Output, o: &Order) {
    out.put(b' ');
    out.number(o.begin);
    out.put(b' ');
    out.number(o.end);
    out.field(o.length as usize);
}

pub fn orders<R: Read + Drop>(case: &mut Replay<R>) -> Result<(), Malformed> {
    let s = read_state(case, false)?;
    let size = case.input.length()?;
    let n = case.input.u8()? as usize;
    let mut list = [Order {
        begin: 0,
        end: 0,
        length: UNSET_LENGTH,
    }; 255];
    let orders = &mut list[..n];
    read_orders(case, orders)?;
    let lent = room(&mut case.work, size);
    let rp = s.rp;
    let r = cut_orders::out_many_lent(
        collector::head_of(rp),
        &rp.len,
        &rp.packet,
        &case.store[..s.size],
        orders,
        lent,
    );
    case.out.number(r.number);
    case.out.field(r.position as usize);
    case.out.text(b" ;");
    for o in orders.iter() {
        put_order(&mut case.out, o);
    }
    case.out.text(b" ; ");
    case.out.buffer(lent);
    Ok(())
}
