// The channel's fault wraps the device's refusal, and the controller's wraps the channel's, carried by `?`. Whoever knows the place sets it.
ghost use Rattle.std.specs.Prelude.{◌≡◌};
ghost use Rattle.works.specs.declared.fault.ChannelFault.TheVariants.{Refused as the_refused};
ghost use Rattle.device.specs.Calls.{command_answer, command_control};
ghost use Rattle.works.specs.Faults.{channel_number as the_channel_number, cause_number, bare, bared, placed as the_placed, by_channel, recorded};

use crate::fault::{Cause, ChannelFault, Fault};
use device::answer::DeviceFault;
use device::control::ControlWord;
use device::interface::Device;

// Numbers by a match and no discriminants: a cause may hold a channel's fault, and that a device's refusal.
impl ChannelFault {
    pub fn number(self) -> u32
        ensures { result ≡ the_channel_number self }
    {
        match self {
            ChannelFault::Parity => 1,
            ChannelFault::Protect => 2,
            ChannelFault::Refused(DeviceFault::Busy) => 4,
            ChannelFault::Refused(DeviceFault::NotTaken) => 5,
        }
    }
}

impl Cause {
    pub fn number(self) -> u32
        ensures { result ≡ cause_number self }
    {
        match self {
            Cause::Channel(fault) => fault.number(),
            Cause::Parity => 1,
            Cause::Protect => 2,
            Cause::Operation => 3,
            Cause::NoDevice => 6,
        }
    }
}

impl Fault {
    // The same fault, with its address, by whom it is and that device's kind number.
    pub fn placed(self, address: u16, by: u32, kind: u32) -> Fault
        ensures { result ≡ the_placed address by kind self }
    {
        Fault {
            address,
            by,
            kind,
            ..self
        }
    }
}

impl From<DeviceFault> for ChannelFault {
    ghost from_gives = { λ e r. r ≡ the_refused e };

    fn from(e: DeviceFault) -> ChannelFault {
        ChannelFault::Refused(e)
    }
}

impl From<ChannelFault> for Fault {
    ghost from_gives = { λ e r. r ≡ bare e };

    fn from(e: ChannelFault) -> Fault {
        Fault {
            cause: Cause::Channel(e),
            address: 0,
            by: 0,
            kind: 0,
        }
    }
}

// A command through a device's channel.
pub fn channel_command<D: Device>(device: &mut D, order: ControlWord) -> Result<(), ChannelFault>
    ensures answer { result ≡ by_channel (command_answer D.Device.means (D.Device.control device.old) order.area order.function) }
    ensures control { D.Device.control device.new ≡ command_control D.Device.means (D.Device.control device.old) order.area order.function order.modifier }
    ensures words { D.Device.words device.new ≡ D.Device.words device.old }
{
    device.command(order)?;
    Ok(())
}

// The same as a fault of the controller's, before its place is set.
fn bare_command<D: Device>(device: &mut D, order: ControlWord) -> Result<(), Fault>
    ensures answer { result ≡ bared (by_channel (command_answer D.Device.means (D.Device.control device.old) order.area order.function)) }
    ensures control { D.Device.control device.new ≡ command_control D.Device.means (D.Device.control device.old) order.area order.function order.modifier }
    ensures words { D.Device.words device.new ≡ D.Device.words device.old }
{
    channel_command(device, order)?;
    Ok(())
}

// A command as the controller gives it, with its own record of a refusal: the address, and the device by position and kind.
pub fn command<D: Device>(
    device: &mut D,
    order: ControlWord,
    address: u16,
    by: u32,
) -> Result<(), Fault>
    ensures answer { result ≡ recorded address by D.Device.means.kind (by_channel (command_answer D.Device.means (D.Device.control device.old) order.area order.function)) }
    ensures control { D.Device.control device.new ≡ command_control D.Device.means (D.Device.control device.old) order.area order.function order.modifier }
    ensures words { D.Device.words device.new ≡ D.Device.words device.old }
{
    let kind = device.kind();
    bare_command(device, order).map_err(|fault| fault.placed(address, by, kind))
}
