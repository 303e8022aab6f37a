ghost use Rattle.std.specs.Prelude.{◌≡◌, ◌∷◌, [], IfOk, length};
ghost use Rattle.branch_pool.specs.Seats.{fresh_seat};

use crate::{Pool, Seat};
use std::alloc::Global;
use wide_int::{Frac, OutOfMemory};

// A pool of two seats, with seat 1 and seat 2.
fn pair<B: Drop>(alloc: Global) -> Result<(Pool<B>, Seat<B>, Seat<B>), OutOfMemory>
    ensures { IfOk result (λ r. (r.1 ≡ fresh_seat r.0.deques 1) × (r.2 ≡ fresh_seat r.0.deques 2) × (length r.0.deques ≡ 2)) }
{
    let (pool, mut seats) = Pool::new(alloc, 2)?;
    let Some(second) = seats.pop() else {
        unreachable!()
    };
    let Some(first) = seats.pop() else {
        unreachable!()
    };
    Ok((pool, first, second))
}

fn list<B: Drop>(alloc: Global, one: Seat<B>, other: Seat<B>) -> Result<Vec<Seat<B>>, OutOfMemory>
    ensures { IfOk result (λ l. l.items ≡ one ∷ other ∷ []) }
{
    match vec![in alloc; one, other] {
        Ok(seats) => Ok(seats),
        Err(_) => Err(OutOfMemory),
    }
}

// Seat 2 steals the oldest of three, seat 1 takes the newest, and one is left.
#[test]
fn oldest_stolen_newest_taken(rt: HostRuntime) -> Result<(), OutOfMemory> {
    let (pool, mut first, mut second) = pair::<Frac>(rt.alloc())?;
    let x = Frac::lowest(1, 2).unwrap();
    let y = Frac::lowest(1, 3).unwrap();
    let z = Frac::lowest(1, 4).unwrap();
    assert_eq!(rt; pool.offer(&mut first, x), Ok(()));
    assert_eq!(rt; pool.offer(&mut first, y), Ok(()));
    assert_eq!(rt; pool.offer(&mut first, z), Ok(()));
    assert_eq!(rt; pool.steal(&rt, &mut second, 1), Some(x));
    assert_eq!(rt; pool.take(&mut first), Some(z));
    assert_eq!(rt; pool.take(&mut second), None);
    let seats = list(rt.alloc(), second, first)?;
    let Ok(tally) = pool.close(rt.alloc(), seats) else {
        return Err(OutOfMemory);
    };
    assert_eq!(rt; tally.left.as_slice(), [y].as_slice());
    assert_eq!(rt; (tally.offered, tally.taken), (3, 2));
    Ok(())
}

// A pool of one seat is a list: what was offered comes back, the newest first, and then nothing.
#[test]
fn one_seat_takes_all(rt: HostRuntime) -> Result<(), OutOfMemory> {
    let (pool, mut seats) = Pool::<u32>::new(rt.alloc(), 1)?;
    let Some(mut seat) = seats.pop() else {
        unreachable!()
    };
    assert_eq!(rt; pool.take(&mut seat), None);
    assert_eq!(rt; pool.offer(&mut seat, 10), Ok(()));
    assert_eq!(rt; pool.offer(&mut seat, 20), Ok(()));
    assert_eq!(rt; pool.take(&mut seat), Some(20));
    assert_eq!(rt; pool.take(&mut seat), Some(10));
    assert_eq!(rt; pool.take(&mut seat), None);
    Ok(())
}
