ghost use Rattle.std.specs.Prelude.{◌≢◌};
ghost use Rattle.outside_io.specs.declared.status.Status.{Status};

use crate::status::Status;
use net_core::Bytes;

/// A status, and the text that is written before the program ends with it. Where reading failed there is nothing to write.
#[derive(Drop)]
pub struct Answer {
    pub status: Status,
    pub text: Bytes,
    pub ghost was_read: { status ≢ Status.ReadFault },
}
