//! The files of a check.
use crate::helper::{HelperInput, Telling};
use lrup_text::WriteFault;
use run_files::{Files, Machine, OpenFault};
use std::alloc::Global;

/// The caller's files, with watchers that tell the helper what they report.
#[derive(Drop)]
pub(crate) struct Watched<'a, F, P> {
    alloc: Global,
    files: F,
    to: &'a P,
}

impl<'a, F: Machine, P: HelperInput> Watched<'a, F, P> {
    pub(crate) fn new(alloc: Global, files: F, to: &'a P) -> Watched<'a, F, P> {
        Watched { alloc, files, to }
    }
}

impl<'a, F: Machine, P: HelperInput + Sync> Files for Watched<'a, F, P> {
    type Input = F::Input;

    ghost contents = { λ s path. F.contents s.files path };

    ghost opens = { λ before path input after. F.opens before.files path input after.files };

    ghost refuses = { λ before path fault after. F.refuses before.files path fault after.files };

    fn open(&mut self, path: &str) -> Result<F::Input, OpenFault> {
        self.files.open(path)
    }
}

impl<'a, F: Machine, P: HelperInput + Sync> Machine for Watched<'a, F, P> {
    type Output = F::Output;

    type Watcher = Telling<'a, P>;

    ghost lacks = { λ before path after. F.lacks before.files path after.files };

    ghost fails = { λ before path fault after. F.fails before.files path fault after.files };

    ghost creates = { λ before path output after.
        F.creates before.files path output after.files };

    ghost refuses_new = { λ before path fault after.
        F.refuses_new before.files path fault after.files };

    ghost keeps = { λ before output after. F.keeps before.files output after.files };

    ghost loses = { λ before output after. F.loses before.files output after.files };

    ghost discards = { λ before output after. F.discards before.files output after.files };

    fn open_if_there(&mut self, path: &str) -> Result<Option<F::Input>, OpenFault> {
        self.files.open_if_there(path)
    }

    fn create(&mut self, path: &str) -> Result<F::Output, OpenFault> {
        self.files.create(path)
    }

    fn keep(&mut self, output: F::Output) -> Result<(), WriteFault> {
        self.files.keep(output)
    }

    fn discard(&mut self, output: F::Output) {
        self.files.discard(output)
    }

    fn watcher(&self) -> Telling<'a, P> {
        Telling::new(self.alloc, b"watch ", self.to)
    }
}
