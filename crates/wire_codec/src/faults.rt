ghost use Rattle.std.specs.Prelude.{◌≡◌, ◌+◌, ◌<◌, ◌^◌};
ghost use Rattle.group_fields.specs.Fields.{place_of};
ghost use Rattle.group_fields.specs.LayoutReads.{shift_fault};

use group_fields::FieldFault;

// The same fault of bytes that begin at a place.
pub(crate) fn fault_behind(place: u32, fault: FieldFault) -> FieldFault
    requires { place + place_of fault < 2 ^ 32 }
    ensures { result ≡ shift_fault place fault }
{
    match fault {
        FieldFault::Short(at) => FieldFault::Short(place + at),
        FieldFault::Range(at) => FieldFault::Range(place + at),
        FieldFault::Excess(at) => FieldFault::Excess(place + at),
    }
}

// The place at which bytes are refused.
pub(crate) fn place_of(fault: FieldFault) -> u32
    ensures { result ≡ place_of fault }
{
    match fault {
        FieldFault::Short(place) => place,
        FieldFault::Range(place) => place,
        FieldFault::Excess(place) => place,
    }
}
