// How many junctions and sets of outlets there are, and what memory their labels need.
ghost use Rattle.std.specs.Prelude.{◌≡◌, ◌-◌, ◌^◌, ◌<◌, ◌≤◌};
ghost use Rattle.district.specs.Model.{layout_of};
ghost use Rattle.labelling.specs.Tables.{code_of, codes};
ghost use Rattle.labelling.specs.Questions.{room_answer};

use crate::kinds::Size;
use district::view::View;
use network::{Cost, Junction, Refusal};

// How many sets the outlets but one have.
#[tactic(auto, using(std::proofs::lemmas::Nat::one_shl))]
pub(crate) fn sets_of(outlets: usize) -> u16
    requires { (0 < outlets) × (outlets ≤ 12) }
    ensures { result ≡ 2 ^ (outlets - 1) }
{
    1 << (outlets - 1)
}

impl Size {
    // The code of the label of a junction and a set.
    pub fn code(self, v: Junction, set: u16) -> usize
        ensures { result ≡ code_of self v set }
    {
        v as usize * self.sets as usize + set as usize
    }

    // How many codes there are.
    pub fn codes(self) -> usize
        ensures { result ≡ codes self }
    {
        self.junctions as usize * self.sets as usize
    }
}

// Is an outlet marked (13)? Have the label memory (14) and the queue (15) a place for each code?
pub fn room<K: Cost>(view: &View<'_, K>, places: usize, capacity: usize) -> Result<Size, Refusal>
    ensures { result ≡ room_answer (layout_of view.now) places capacity }
{
    let outlets = view.outlets.len();
    if outlets == 0 {
        return Err(Refusal::NoOutlet);
    }
    let size = Size {
        junctions: view.junctions,
        sets: sets_of(outlets),
    };
    if places < size.codes() {
        return Err(Refusal::LabelMemory);
    }
    if capacity < size.codes() {
        return Err(Refusal::QueueCapacity);
    }
    Ok(size)
}
