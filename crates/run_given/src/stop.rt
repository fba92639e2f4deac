//! What ends the program before anything is run.
ghost use Rattle.std.specs.Prelude.{◌≡◌, IfOk, OnErr};
ghost use Rattle.run_given.specs.Stops.{IsTrouble, IsCause, IsStop, IsUnread};
ghost use Rattle.run_given.specs.declared.stop.Stop.TheVariants.{OutOfMemory};

use crate::reading::NoBytes;
use end_words::{Exit, Fault, Unreadable};
use plain_data::Text;
use std::alloc::{AllocError, Global};

/// Why there is nothing to run.
#[derive(Drop)]
pub enum Stop {
    /// The program ends so.
    Early(Exit),
    OutOfMemory,
}

impl From<AllocError> for Stop {
    ghost from_gives = { λ _ stop. stop ≡ OutOfMemory };

    fn from(_error: AllocError) -> Stop {
        Stop::OutOfMemory
    }
}

/// The end of a program that has nothing to run.
pub fn stopped(stop: Stop) -> Result<Exit, AllocError>
    ensures ok { IfOk result (λ exit. stop ≡ Stop.Early exit) }
    ensures err { OnErr result (stop ≡ Stop.OutOfMemory) }
{
    match stop {
        Stop::Early(exit) => Ok(exit),
        Stop::OutOfMemory => Err(AllocError),
    }
}

/// The end of a program that can't read the file of this name, unless the read was out of memory.
pub fn unread(alloc: Global, trouble: NoBytes, name: &str) -> Stop
    requires { IsTrouble trouble }
    ensures { IsStop (IsUnread name.now) result }
{
    match trouble {
        NoBytes::Unreadable(why) => unread_for(alloc, name, why),
        NoBytes::OutOfMemory => Stop::OutOfMemory,
    }
}

/// The end of a program that lacks the file of this name, and why.
#[tactic(auto, using(crate::specs::Stops::unread))]
pub fn unread_for(alloc: Global, name: &str, why: Unreadable) -> Stop
    requires { IsCause why }
    ensures { IsStop (IsUnread name.now) result }
{
    match Text::from_text(alloc, name) {
        Ok(name) => Stop::Early(Exit::Fault(Fault::Unread(name, why))),
        Err(error) => Stop::from(error),
    }
}
