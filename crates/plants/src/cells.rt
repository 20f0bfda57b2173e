ghost use Rattle.plants.specs.Calls.{Flooded};

use kinds::Kind;

// Writes a value into `cells` cells from `start`, as far as the sheet goes.
pub fn fill<T: Kind>(sheet: &mut [T], start: usize, cells: usize, value: T)
    ensures { Flooded T.Kind.ops start cells value sheet.old sheet.new }
{
    if start >= sheet.len() {
        return;
    }
    let end = start.saturating_add(cells).min(sheet.len());
    // Not the library's `fill`: it asks that clones cannot fail, which would be a law more
    // for every kind.
    for cell in &mut sheet[start..end] {
        *cell = value;
    }
}
