// The answers of the searches, for dispatch and for the calls for C.
ghost use Rattle.std.specs.Prelude.{◌≡◌};
ghost use Rattle.board.specs.Handles.{function_count};
ghost use Rattle.board.specs.Layout.{register_byte};
ghost use Rattle.search.specs.Search.{sought_devices, sought_classes, sought_number};
ghost use Rattle.call.specs.Answers.{of_search};

use crate::answer::{Answer, of_search};
use board::layout::{Header, Registers};
use call_edition::edition::InEdition;
use search::{find_pci_classcode, find_pci_device};

pub fn device_answer(header: &Header, registers: &Registers, id: InEdition, index: u32) -> Answer
    ensures { result ≡ of_search (sought_number
        (sought_devices id
        (function_count header.now) (register_byte registers.now))
        index) }
{
    of_search(find_pci_device(header, registers, id, index))
}

pub fn class_answer(header: &Header, registers: &Registers, class: InEdition, index: u32) -> Answer
    ensures { result ≡ of_search (sought_number
        (sought_classes class
        (function_count header.now) (register_byte registers.now))
        index) }
{
    of_search(find_pci_classcode(header, registers, class, index))
}
