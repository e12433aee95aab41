// An operation as the six numbers of a sheet's line 2.
ghost use Rattle.std.specs.Prelude.{◌≡◌};
ghost use Rattle.operation.specs.Numbers.{are_listed, scoping_of, reading_of, operation_of};

use crate::Operation;
use checks::Reading;
use scope::ScopingMode;

// The roots: first (left, pattern or value pattern), second (right or collection), some-in key.
#[derive(Clone, Copy)]
pub struct OperationNumbers {
    pub number: u32,
    pub scheduler: u32,
    pub scoping: u32,
    pub first: u32,
    pub second: u32,
    pub key: u32,
}

// Are operation, scheduler and scoping listed numbers?
pub fn are_listed(numbers: OperationNumbers) -> bool
    ensures { result ≡ are_listed numbers }
{
    if numbers.number < 1 {
        return false;
    }
    if 6 < numbers.number {
        return false;
    }
    if 1 < numbers.scheduler {
        return false;
    }
    if numbers.scoping < 1 {
        return false;
    }
    numbers.scoping <= 4
}

// Meant for listed numbers: any but 2 and 4 is RespectParent.
pub fn scoping_of(scoping: u32) -> ScopingMode
    ensures { result ≡ scoping_of scoping }
{
    if scoping == 2 {
        return ScopingMode::AllowShadowing;
    }
    if scoping == 4 {
        return ScopingMode::AllowShadowing;
    }
    ScopingMode::RespectParent
}

// Meant for listed numbers: 3 and 4 are read carefully.
pub fn reading_of(scoping: u32) -> Reading
    ensures { result ≡ reading_of scoping }
{
    if scoping < 3 {
        return Reading::Present;
    }
    Reading::Careful
}

// Meant for listed numbers: any but 1 to 5 is the parameter operation.
pub fn operation_of(numbers: OperationNumbers) -> Operation
    ensures { result ≡ operation_of numbers }
{
    let number = numbers.number;
    let scoping = scoping_of(numbers.scoping);
    let reading = reading_of(numbers.scoping);
    let first = numbers.first;
    let second = numbers.second;
    if number == 1 {
        return Operation::Pattern {
            scoping,
            root: first,
        };
    }
    if number == 2 {
        return Operation::ColonEquals {
            left: first,
            right: second,
            reading,
        };
    }
    if number == 3 {
        return Operation::Equals {
            left: first,
            right: second,
            reading,
        };
    }
    if number == 4 {
        return Operation::SomeIn {
            value: first,
            collection: second,
            key: numbers.key,
            reading,
        };
    }
    if number == 5 {
        return Operation::Index { root: first };
    }
    Operation::Parameter {
        scoping,
        root: first,
    }
}
