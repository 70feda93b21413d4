use thiserror::Error;

/// Why a sink took no more bytes.
#[derive(Clone, Copy, Debug, PartialEq, Eq, Error)]
pub enum SinkFault {
    /// The sink failed, and counted it.
    #[error("the sink failed")]
    Failed,
}

/// Where output goes.
///
/// It may tell what was sent. It counts its faults, and the count stays at 2^64 - 1 once it is there.
pub trait Sink {
    ghost use Rattle.std.specs.Prelude.{ℕ, List, Option, ◌≡◌, OnOk, OnErr};
    ghost use Rattle.cic_io.specs.Files.{Rose};
    ghost use Rattle.cic_io.specs.Sending.{SentAll, SentPart};

    /// All that was sent, where the sink tells it.
    ghost sent: { Self → Option (List ℕ) };

    /// How many calls answered Failed.
    ghost faults: { Self → ℕ };

    /// Sends the bytes. After a fault the first of them may have been sent.
    fn write(&mut self, bytes: &[u8]) -> Result<(), SinkFault>
        ensures sent { OnOk result (SentAll (sent self.old) bytes.now (sent self.new)) }
        ensures part { OnErr result (SentPart (sent self.old) bytes.now (sent self.new)) }
        ensures failed { OnErr result (Rose (faults self.old) (faults self.new)) }
        ensures quiet { OnOk result (faults self.new ≡ faults self.old) };
}
