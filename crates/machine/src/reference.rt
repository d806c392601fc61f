// A reference that was admitted.
ghost use Rattle.std.specs.Prelude.{◌≡◌, ℕ, ◌%◌, ◌<◌};
ghost use Rattle.base.specs.Blocks.{block_of, word_of};
ghost use Rattle.base.specs.Sizes.{block_words};
ghost use Rattle.faults.specs.declared.machine_fault.Caller.TheVariants.{Processor};
ghost use Rattle.rules.specs.Bus.{from_cpu};
ghost use Rattle.rules.specs.Sizes.{most_processors, v_sets};

use base::block::{Address, VirtualBlock};
use faults::machine_fault::Caller;
use records::record::ProcessorNumber;
use tables::message::Sender;
use tables::types::{PROCESSORS, V_SETS};

// By which processor, to which address, and the value of a write.
#[derive(Clone, Copy)]
pub(crate) struct Reference {
    pub processor: ProcessorNumber,
    pub address: Address,
    pub value: Option<u32>,
}

impl Reference {
    // The processor's place among the records.
    pub(crate) fn cpu(self) -> usize
        ensures within { result < most_processors }
        ensures value { self.processor.0 < most_processors → result ≡ self.processor.0 }
    {
        self.processor.0 as usize % PROCESSORS
    }

    pub(crate) fn caller(self) -> Caller
        ensures { result ≡ Processor self.processor }
    {
        Caller::Processor(self.processor)
    }

    pub(crate) fn sender(self) -> Sender
        ensures { result ≡ from_cpu self.processor.0 }
    {
        Sender::Cpu(self.processor)
    }

    pub(crate) fn block(self) -> VirtualBlock
        ensures { result.0 ≡ block_of self.address.0 }
    {
        self.address.block()
    }

    // The V-set of the block.
    #[tactic(auto, unfolding(rules::specs::Sizes::v_sets))]
    pub(crate) fn set(self) -> usize
        ensures { result ≡ block_of self.address.0 % v_sets }
    {
        usize::from(self.address.block()) % V_SETS
    }

    // Which word of the block it is.
    pub(crate) fn word(self) -> usize
        ensures value { result ≡ word_of self.address.0 }
        ensures within { result < block_words }
    {
        self.address.word()
    }
}
