// What a register write does.
#![tactic(auto)]

ghost use Rattle.std.specs.Prelude.{◌≡◌, Err};
ghost use Rattle.register_write.specs.Answers.{write_number, write_outcome};
ghost use Rattle.device.specs.Device.{with_registers};
ghost use Rattle.register_write.specs.Registers.{in_range, id_written, enable_written, unconfigured, synced, plane_on, cursor_on_written};
ghost use Rattle.register_write.specs.Registers.{effect_of, ring_written, writable_written, written};

use device::{Condition, Device, MAX_HEIGHT, MAX_WIDTH, Plane, Registers, is_well_formed};
use register::{Register, Writable};

// Why a register write is refused.
#[derive(Clone, Copy, PartialEq, Eq)]
pub enum WriteError {
    WrongLength,
    NoRegister,
    NotWritable,
    BadValue,
    RingRefused,
}

impl From<WriteError> for u32 {
    ghost from_gives = { λ e number. number ≡ write_number (Err e) };

    // Rules out: 31 for a register that is absent; 33 for a lent length.
    fn from(e: WriteError) -> u32 {
        match e {
            WriteError::WrongLength => 20,
            WriteError::NoRegister => 30,
            WriteError::NotWritable => 31,
            WriteError::BadValue => 32,
            WriteError::RingRefused => 33,
        }
    }
}

// ---- the ranges

#[tactic(auto, unfolding(crate::specs::Registers::in_range))]
fn in_range(w: Writable, value: u32) -> bool
    ensures { result ≡ in_range w value }
{
    match w {
        Writable::Enable | Writable::ConfigDone => value <= 1,
        Writable::Width => (1..=MAX_WIDTH).contains(&value),
        Writable::Height => (1..=MAX_HEIGHT).contains(&value),
        Writable::CursorOn => value <= 3,
        Writable::Id
        | Writable::Sync
        | Writable::GuestId
        | Writable::CursorId
        | Writable::CursorX
        | Writable::CursorY => true,
    }
}

// ---- the effects: what a value in its range does

fn with_registers(d: Device, registers: Registers) -> Device
    ensures { result ≡ with_registers d registers }
{
    Device { registers, ..d }
}

#[tactic(auto, unfolding(crate::specs::Registers::id_written))]
fn write_id(d: Device, value: u32) -> Device
    ensures { result ≡ id_written d value }
{
    if !(0x90000000..=0x90000002).contains(&value) {
        return d;
    }
    with_registers(
        d,
        Registers {
            id: value,
            ..d.registers
        },
    )
}

// 0 clears BUSY.
#[tactic(auto, unfolding(crate::specs::Registers::enable_written))]
fn write_enable(d: Device, value: u32) -> Device
    ensures { result ≡ enable_written d value }
{
    Device {
        registers: Registers {
            enable: value != 0,
            ..d.registers
        },
        busy: value != 0 && d.busy,
        ..d
    }
}

// CONFIG_DONE 0: a ring is forgotten, a fault stands on.
fn unconfigure(d: Device) -> Device
    ensures { result ≡ unconfigured d }
{
    let condition = match d.condition {
        Condition::Idle | Condition::Running(_) => Condition::Idle,
        Condition::Faulted(cause) => Condition::Faulted(cause),
    };
    Device {
        registers: Registers {
            config: false,
            ..d.registers
        },
        busy: false,
        condition,
        ..d
    }
}

#[tactic(auto, unfolding(crate::specs::Registers::synced))]
fn sync(d: Device) -> Device
    ensures { result ≡ synced d }
{
    let runs = match d.condition {
        Condition::Running(_) => true,
        Condition::Idle | Condition::Faulted(_) => false,
    };
    Device {
        busy: runs && d.registers.enable || d.busy,
        ..d
    }
}

// What CURSOR_ON makes of the cursor plane.
#[tactic(auto, unfolding(crate::specs::Registers::plane_on))]
fn plane_on(d: Device, value: u32) -> Plane
    ensures { result ≡ plane_on d value }
{
    match value {
        0 => Plane {
            shown: false,
            ..d.plane
        },
        1 => Plane {
            shown: true,
            id: d.registers.cursorid,
            x: d.registers.cursorx,
            y: d.registers.cursory,
        },
        _ => d.plane,
    }
}

fn write_cursor_on(d: Device, value: u32) -> Device
    ensures { result ≡ cursor_on_written d value }
{
    Device {
        registers: Registers {
            cursoron: value,
            ..d.registers
        },
        plane: plane_on(d, value),
        ..d
    }
}

// Each register's own effect; of CONFIG_DONE that of 0. Inlined, since a device is passed and returned by way of memory.
#[inline(always)]
#[tactic(auto, unfolding(crate::specs::Registers::effect_of))]
fn effect(d: Device, value: u32, w: Writable) -> Device
    ensures { result ≡ effect_of d value w }
{
    let g = d.registers;
    match w {
        Writable::Id => write_id(d, value),
        Writable::Enable => write_enable(d, value),
        Writable::Width => with_registers(d, Registers { width: value, ..g }),
        Writable::Height => with_registers(d, Registers { height: value, ..g }),
        Writable::ConfigDone => unconfigure(d),
        Writable::Sync => sync(d),
        Writable::GuestId => with_registers(d, Registers { guest: value, ..g }),
        Writable::CursorId => with_registers(
            d,
            Registers {
                cursorid: value,
                ..g
            },
        ),
        Writable::CursorX => with_registers(
            d,
            Registers {
                cursorx: value,
                ..g
            },
        ),
        Writable::CursorY => with_registers(
            d,
            Registers {
                cursory: value,
                ..g
            },
        ),
        Writable::CursorOn => write_cursor_on(d, value),
    }
}

// ---- CONFIG_DONE 1, the one write that asks for the ring

#[tactic(auto, unfolding(crate::specs::Registers::ring_written, crate::specs::Registers::accepted_written))]
fn configure(d: Device, ring: &[u32]) -> Result<Device, WriteError>
    ensures { write_outcome d result ≡ ring_written d ring.now }
{
    if ring.len() != (d.sizes.memory / 4) as usize {
        return Err(WriteError::WrongLength);
    }
    let Some(accepted) = ring::accept(ring) else {
        return Err(WriteError::RingRefused);
    };
    Ok(Device {
        registers: Registers {
            config: true,
            ..d.registers
        },
        condition: Condition::Running(accepted),
        ..d
    })
}

// ---- writing a register

#[tactic(auto, unfolding(crate::specs::Registers::writable_written, crate::specs::Registers::ring_asked))]
fn write_writable(d: Device, ring: &[u32], w: Writable, value: u32) -> Result<Device, WriteError>
    ensures { write_outcome d result ≡ writable_written d ring.now value w }
{
    if !in_range(w, value) {
        return Err(WriteError::BadValue);
    }
    if w == Writable::ConfigDone && value == 1 {
        return configure(d, ring);
    }
    Ok(effect(d, value, w))
}

// A register write. The ring is looked at by CONFIG_DONE 1 only. A write that is refused leaves the device as it was.
// Rules out: a refused write that changes the device; 32 for a read-only register; a refused ring that clears a fault.
#[tactic(auto, unfolding(crate::specs::Registers::written, crate::specs::Registers::written_by))]
pub fn write(d: Device, ring: &[u32], index: u32, value: u32) -> Result<Device, WriteError>
    ensures { write_outcome d result ≡ written d ring.now index value }
{
    if !is_well_formed(d) {
        return Err(WriteError::NoRegister);
    }
    match Register::from(index) {
        Register::Writes(w) => write_writable(d, ring, w, value),
        Register::Reads(_) => Err(WriteError::NotWritable),
        Register::Absent => Err(WriteError::NoRegister),
    }
}
