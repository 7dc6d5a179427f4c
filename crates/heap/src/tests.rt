use crate::Heap;
use network::{CrossingsFirst, Money, Refusal};
use queue::Queue;

fn money(amount: u64) -> Money {
    Money { amount }
}

fn crossings(crossings: u64, money: u64) -> CrossingsFirst {
    CrossingsFirst { crossings, money }
}

// The codes take their place in the queue, one after the other.
fn put_two<Q: Queue>(queue: &mut Q, first: (usize, Q::Cost), second: (usize, Q::Cost))
    requires { Q.ok queue.old }
    ensures { Q.ok queue.new }
{
    let _ = (*queue).put(first.0, first.1);
    let _ = (*queue).put(second.0, second.1);
}

// The code that is taken, if one waits.
fn next<Q: Queue>(queue: &mut Q) -> Option<usize>
    requires { Q.ok queue.old }
    ensures { Q.ok queue.new }
{
    (*queue).take().map(|(_, code)| code)
}

// The next three codes.
fn next_three<Q: Queue>(queue: &mut Q) -> [Option<usize>; 3]
    requires { Q.ok queue.old }
    ensures { Q.ok queue.new }
{
    let first = next(&mut *queue);
    let second = next(&mut *queue);
    let third = next(&mut *queue);
    [first, second, third]
}

#[test]
fn heap_over_anything(rt: HostRuntime) {
    let mut keys = [money(7); 6];
    let mut codes = [3; 5];
    let mut places = [2; 7];
    let mut heap = Heap::over(&mut keys, &mut codes, &mut places);
    assert!(rt; heap.capacity() == 5);
    assert!(rt; heap.least().is_none());
}

#[test]
fn heap_by_money_and_then_code(rt: HostRuntime) {
    let mut keys = [money(7); 5];
    let mut codes = [3; 5];
    let mut places = [2; 5];
    let mut heap = Heap::over(&mut keys, &mut codes, &mut places);
    put_two(&mut heap, (4, money(5)), (2, money(5)));
    put_two(&mut heap, (0, money(8)), (3, money(9)));
    // One is lowered, the other is not raised.
    put_two(&mut heap, (3, money(6)), (2, money(7)));
    assert!(rt; next_three(&mut heap) == [Some(2), Some(4), Some(3)]);
    assert!(rt; next_three(&mut heap) == [Some(0), None, None]);
}

#[test]
fn heap_by_crossings_first(rt: HostRuntime) {
    let mut keys = [crossings(0, 0); 3];
    let mut codes = [0; 3];
    let mut places = [0; 3];
    let mut heap = Heap::over(&mut keys, &mut codes, &mut places);
    put_two(&mut heap, (0, crossings(2, 5)), (1, crossings(1, 900)));
    put_two(&mut heap, (2, crossings(1, 800)), (0, crossings(2, 6)));
    assert!(rt; next_three(&mut heap) == [Some(2), Some(1), Some(0)]);
}

#[test]
fn heap_cleared_and_filled_again(rt: HostRuntime) {
    let mut keys = [money(0); 2];
    let mut codes = [0; 2];
    let mut places = [0; 2];
    let mut heap = Heap::over(&mut keys, &mut codes, &mut places);
    put_two(&mut heap, (0, money(1)), (1, money(2)));
    heap.clear();
    assert!(rt; heap.least().is_none());
    put_two(&mut heap, (1, money(3)), (1, money(4)));
    assert!(rt; next_three(&mut heap) == [Some(1), None, None]);
}

#[test]
fn heap_refuses_a_code_beyond(rt: HostRuntime) {
    let mut keys = [money(0); 2];
    let mut codes = [0; 2];
    let mut places = [0; 2];
    let mut heap = Heap::over(&mut keys, &mut codes, &mut places);
    assert!(rt; heap.put(2, money(1)).map_err(Refusal::number) == Err(20));
    assert!(rt; heap.put(1, money(1)).is_ok());
}
