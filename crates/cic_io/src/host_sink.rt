use crate::counting::count_fault;
use crate::sink::{Sink, SinkFault};
use std::io;
use std::io::Write;

/// The program's standard output. Each write is flushed; the sink tells nothing of what was sent.
#[derive(Drop)]
pub struct HostSink<R> {
    rt: R,
    faults: u64,
}

impl<R: Print> HostSink<R> {
    ghost use Rattle.std.specs.Prelude.{◌≡◌};

    /// The standard output, as the runtime reaches it.
    pub fn new(rt: R) -> HostSink<R>
        ensures { ⟦<HostSink<R> as Sink>⟧.faults result ≡ 0 }
    {
        HostSink { rt, faults: 0 }
    }
}

impl<R: Print> Sink for HostSink<R> {
    ghost use Rattle.std.specs.Prelude.{None};

    ghost sent = { λ _. None };

    ghost faults = { λ sink. sink.faults };

    fn write(&mut self, bytes: &[u8]) -> Result<(), SinkFault> {
        match print_bytes(&self.rt, bytes) {
            Ok(()) => Ok(()),
            Err(_) => {
                count_fault(&mut self.faults);
                Err(SinkFault::Failed)
            }
        }
    }
}

fn print_bytes<R: Print>(rt: &R, bytes: &[u8]) -> io::Result<()> {
    let mut out = io::writer(rt);
    out.write_all(bytes)?;
    out.flush()
}
