//! When datagrams are sent.
ghost use Rattle.std.specs.Prelude.{◌≡◌};
ghost use Rattle.at_recording.specs.Moments.{moment_after};

/// When a datagram is sent.
#[derive(Clone, Copy, Debug, PartialEq, Eq)]
pub struct Moment {
    /// The number of the event that sends it, from 0.
    pub event: u32,
    /// Its place among the datagrams that this event sends, from 0 and up to the largest number of 32 bits.
    pub place: u32,
}

impl Moment {
    /// The moment of the next datagram, which this event sends. The last one was sent at the moment `last`, if there
    /// was one.
    pub fn after(last: Option<Moment>, event: u32) -> Moment
        ensures { result ≡ moment_after last event }
    {
        let place = match last {
            Some(moment) if moment.event == event => moment.place.saturating_add(1),
            _ => 0,
        };
        Moment { event, place }
    }
}
