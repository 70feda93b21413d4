use crate::call_count::CallCount;
use crate::calls::Calls;
use crate::counting::count_fault;
use crate::sink::{Sink, SinkFault};
use memory::NoMemory;
use std::alloc::Global;

/// A sink in memory, which tells what was sent and fails at the calls that it is told, counted from 1.
///
/// A write whose own growth is refused memory fails too, and is counted.
#[derive(Debug, Drop)]
pub struct MemSink {
    bytes: Vec<u8>,
    calls: CallCount,
}

impl MemSink {
    ghost use Rattle.std.specs.Prelude.{◌≡◌, IfOk, Some, []};
    ghost use Rattle.cic_io.specs.Calls.{NoneMade};
    ghost use Rattle.cic_io.specs.Memory.{sink_calls};

    /// A sink to which nothing was sent. It takes memory only as it is written to.
    pub fn new(alloc: Global, fail: Calls) -> Result<MemSink, NoMemory>
        ensures sent { IfOk result (λ sink. ⟦<MemSink as Sink>⟧.sent sink ≡ Some []) }
        ensures calls { IfOk result (λ sink. NoneMade (sink_calls sink) fail) }
        ensures faults { IfOk result (λ sink. ⟦<MemSink as Sink>⟧.faults sink ≡ 0) }
    {
        Ok(MemSink {
            bytes: Vec::new(alloc),
            calls: CallCount::new(fail),
        })
    }

    /// All that was sent.
    pub fn sent(&self) -> &[u8]
        ensures { ⟦<MemSink as Sink>⟧.sent self.now ≡ Some result.now }
    {
        self.bytes.as_slice()
    }

    /// How many writes failed; 2^64 - 1 also where it were more.
    pub fn faults(&self) -> u64
        ensures { result ≡ ⟦<MemSink as Sink>⟧.faults self.now }
    {
        self.calls.faults
    }
}

impl Sink for MemSink {
    ghost use Rattle.std.specs.Prelude.{◌≡◌, Some, OnOk, OnErr, IsErr};
    ghost use Rattle.cic_io.specs.Files.{Rose};
    ghost use Rattle.cic_io.specs.Sending.{SentAll, SentPart};
    ghost use Rattle.cic_io.specs.Calls.{NextFails, OneMore};
    ghost use Rattle.cic_io.specs.Memory.{sink_calls};

    ghost sent = { λ sink. Some sink.bytes.items };

    ghost faults = { λ sink. sink.calls.faults };

    /// At a call that is to fail, and where memory is refused, nothing is sent.
    fn write(&mut self, bytes: &[u8]) -> Result<(), SinkFault>
        ensures sent { OnOk result (SentAll (⟦<MemSink as Sink>⟧.sent self.old) bytes.now (⟦<MemSink as Sink>⟧.sent self.new)) }
        ensures part { OnErr result (SentPart (⟦<MemSink as Sink>⟧.sent self.old) bytes.now (⟦<MemSink as Sink>⟧.sent self.new)) }
        ensures failed { OnErr result (Rose (⟦<MemSink as Sink>⟧.faults self.old) (⟦<MemSink as Sink>⟧.faults self.new)) }
        ensures quiet { OnOk result (⟦<MemSink as Sink>⟧.faults self.new ≡ ⟦<MemSink as Sink>⟧.faults self.old) }
        ensures unsent { OnErr result (⟦<MemSink as Sink>⟧.sent self.new ≡ ⟦<MemSink as Sink>⟧.sent self.old) }
        ensures fails { NextFails (sink_calls self.old) → IsErr result }
        ensures counted { OneMore (sink_calls self.old) (sink_calls self.new) }
    {
        if self.calls.next_fails() {
            return Err(SinkFault::Failed);
        }
        match self.bytes.extend_from_slice(bytes) {
            Ok(()) => Ok(()),
            Err(_) => {
                count_fault(&mut self.calls.faults);
                Err(SinkFault::Failed)
            }
        }
    }
}
