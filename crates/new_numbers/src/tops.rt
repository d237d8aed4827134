//! Numbers above all that were seen.

ghost use Rattle.std.specs.Prelude.{◌≡◌, ◌<◌, ◌^◌};
ghost use Rattle.new_numbers.specs.Tops.{with_label, with_value};

/// The first number above all values, and the first one above all labels.
#[derive(Clone, Copy, Debug)]
pub struct Tops {
    pub values: u64,
    pub labels: u64,
}

impl Tops {
    pub fn see_value(&mut self, value: u32)
        ensures { self.new ≡ with_value self.old value }
    {
        self.values = self.values.max(u64::from(value) + 1);
    }

    pub fn see_label(&mut self, label: u32)
        ensures { self.new ≡ with_label self.old label }
    {
        self.labels = self.labels.max(u64::from(label) + 1);
    }
}
