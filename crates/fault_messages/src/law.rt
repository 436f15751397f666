ghost use Rattle.fault_messages.specs.Limits.{AreFailureLimits, AreNetworkLimits, AreReportLimits};

/// The limits that sentences name are those of the readers. The call does nothing, and takes no time.
pub fn limits_are_the_readers()
    ensures network { AreNetworkLimits }
    ensures failures { AreFailureLimits }
    ensures report { AreReportLimits }
{}
