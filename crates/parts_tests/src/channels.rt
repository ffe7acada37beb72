//! The calls of `sp_channel`, each once, and the table of offers.

ghost use Rattle.std.specs.Prelude.{◌≡◌, IfOk, length};

use sp_base::Memory;
use sp_channel::{Channels, Offer, Pending, Way};
use std::alloc::Global;
use std::test::Fail;

#[test]
fn channels_are_numbered_as_they_are_opened(rt: HostRuntime) -> Result<(), Fail> {
    let mut channels = Channels::new(rt.alloc());
    assert_eq!(rt; channels.open(7)?, 0);
    assert_eq!(rt; channels.open(7)?, 1);
    assert_eq!(rt; channels.count(), 2);
    Ok(())
}

/// Two channels.
fn opened(alloc: Global) -> Result<Channels, Memory>
    ensures { IfOk result (λ channels. length channels ≡ 2) }
{
    let mut channels = Channels::new(alloc);
    let _first = channels.open(7)?;
    let _second = channels.open(7)?;
    Ok(channels)
}

#[test]
fn offers_beside_one_to_send(rt: HostRuntime) -> Result<(), Fail> {
    let mut channels = opened(rt.alloc())?;
    assert_eq!(rt; channels.offer(Way::Send, 1, 3, 5), Offer::Waits);
    assert_eq!(rt; channels.offer(Way::Send, 1, 4, 5), Offer::Contends(3));
    assert_eq!(rt; channels.offer(Way::Send, 1, 4, 6), Offer::Contends(3));
    assert_eq!(rt;
        channels.offer(Way::Receive, 1, 4, 6),
        Offer::TypeDiffers(3)
    );
    Ok(())
}

#[test]
fn an_offer_is_pending_until_it_is_met(rt: HostRuntime) -> Result<(), Fail> {
    let mut channels = opened(rt.alloc())?;
    assert_eq!(rt; channels.pending(1), None);
    let first = Pending {
        way: Way::Send,
        process: 3,
        message: 5,
    };
    let _waits = channels.offer(Way::Send, 1, 3, 5);
    assert_eq!(rt; channels.pending(1), Some(first));
    assert_eq!(rt; channels.offer(Way::Receive, 1, 4, 5), Offer::Meets(3));
    assert_eq!(rt; channels.pending(1), None);
    Ok(())
}

#[test]
fn offers_beside_one_to_receive(rt: HostRuntime) -> Result<(), Fail> {
    let mut channels = opened(rt.alloc())?;
    assert_eq!(rt; channels.offer(Way::Receive, 1, 4, 5), Offer::Waits);
    assert_eq!(rt; channels.offer(Way::Receive, 1, 3, 5), Offer::Contends(4));
    assert_eq!(rt; channels.offer(Way::Send, 1, 3, 5), Offer::Meets(4));
    Ok(())
}
