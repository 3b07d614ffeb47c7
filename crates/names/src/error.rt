// Refusals about names.
ghost use Rattle.std.specs.Prelude.{◌≡◌};
ghost use Rattle.names.specs.Faults.{name_fault_number};

#[derive(Clone, Copy, PartialEq, Eq, Debug)]
pub enum NameFault {
    AssignType,
    WriteRefType,
    NotRef,
    DuplicateDecl,
    UnknownDecl,
    NoNames,
}

// The number under which a refusal is printed.
impl From<NameFault> for u16 {
    ghost from_gives = { λ fault number. number ≡ name_fault_number fault };

    fn from(fault: NameFault) -> u16 {
        match fault {
            NameFault::AssignType => 11,
            NameFault::WriteRefType => 12,
            NameFault::NotRef => 13,
            NameFault::DuplicateDecl => 15,
            NameFault::UnknownDecl => 21,
            NameFault::NoNames => 52,
        }
    }
}
