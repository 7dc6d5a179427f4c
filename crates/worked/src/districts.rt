// The numbers at the edges of each question.
use district::district::{District, Memory};
use network::{Cost, Money, Refusal, Run};
use std::alloc::{AllocError, Global};
use std::test::Fail;

pub(crate) fn euros(amount: u64) -> Money {
    Money { amount }
}

// Rows for so many runs.
pub(crate) fn memory<K: Cost>(heap: Global, places: usize) -> Result<Memory<K>, AllocError> {
    let none = Run {
        a: 0,
        b: 0,
        cost: K::zero(),
    };
    let runs = vec![in heap; none; places]?;
    let open = vec![in heap; false; places]?;
    Ok(Memory { runs, open })
}

// The number of the refusal.
fn refused<T: Drop>(answer: Result<T, Refusal>) -> Option<u8> {
    answer.err().map(|why| why.number())
}

// The number of the refusal of a making.
fn unmade(heap: Global, junctions: u64, places: usize) -> Result<Option<u8>, AllocError> {
    match District::<Money>::make(junctions, memory(heap, places)?) {
        Ok(_) => Ok(None),
        Err(unmade) => Ok(Some(unmade.why.number())),
    }
}

#[test]
fn makings(rt: HostRuntime) -> Result<(), Fail> {
    assert_eq!(rt; unmade(rt.alloc(), 1024, 1)?, None);
    assert_eq!(rt; unmade(rt.alloc(), 1, 4096)?, None);
    assert_eq!(rt; unmade(rt.alloc(), 1025, 1)?, Some(1));
    assert_eq!(rt; unmade(rt.alloc(), 0, 1)?, Some(1));
    assert_eq!(rt; unmade(rt.alloc(), 65537, 1)?, Some(1));
    assert_eq!(rt; unmade(rt.alloc(), 4, 4097)?, Some(2));
    Ok(())
}

#[test]
fn layings(rt: HostRuntime) -> Result<(), Fail> {
    let Ok(mut d) = District::make(4, memory(rt.alloc(), 1)?) else {
        return Err(Fail::new("not made"));
    };
    assert_eq!(rt; refused(d.lay(4, 0, euros(2))), Some(3));
    assert_eq!(rt; refused(d.lay(0, 65537, euros(2))), Some(3));
    assert_eq!(rt; refused(d.lay(1, 1, euros(2))), Some(4));
    assert_eq!(rt; refused(d.lay(0, 1, euros(0))), Some(5));
    assert_eq!(rt; refused(d.lay(0, 1, euros(1_000_001))), Some(6));
    assert_eq!(rt; refused(d.lay(0, 1, euros(1_000_000))), None);
    assert_eq!(rt; refused(d.lay(0, 1, euros(1))), Some(7));
    Ok(())
}

#[test]
fn markings(rt: HostRuntime) -> Result<(), Fail> {
    let Ok(mut d) = District::<Money>::make(13, memory(rt.alloc(), 0)?) else {
        return Err(Fail::new("not made"));
    };
    for j in (0..12u64).rev() {
        assert_eq!(rt; refused(d.mark(j)), None);
    }
    assert_eq!(rt; refused(d.mark(13)), Some(3));
    assert_eq!(rt; refused(d.mark(3)), Some(10));
    assert_eq!(rt; refused(d.mark(12)), Some(11));
    Ok(())
}
