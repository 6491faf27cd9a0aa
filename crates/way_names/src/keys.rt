// Keys of names.
ghost use Rattle.std.specs.Prelude.{◌≡◌, ℕ, cond, List, Some, None, map, IfOk, OnOk, slice_get};
ghost use Rattle.std.specs.Str.{bytes_eq};
ghost use Rattle.c_core.specs.declared.tree.Object.{Object as SpecObject};
ghost use Rattle.way_names.specs.Keys.{key_at, key_of, number_in};
ghost use Rattle.way_places.specs.Seeking.{or_else};

use c_core::Object;
use std::alloc::Global;
use std::collections::BTreeMap;
use wv_base::OutOfMemory;

/// The keys of a program's names: that of a name is the number of the first object that has it.
#[derive(Drop)]
pub struct Keys<'a> {
    /// Of this program.
    pub objects: &'a [Object],
    numbers: BTreeMap<&'a str, usize>,
    of_objects: Vec<usize>,
    ghost named: { (x : List ℕ) → number_in numbers x ≡ key_of objects.now x },
    ghost keyed: { map Some of_objects.items ≡ map (λ (o : SpecObject). key_of objects.now o.name) objects.now },
}

fn number_in(numbers: &BTreeMap<&str, usize>, name: &str) -> Option<usize>
    ensures { result ≡ number_in numbers.now name.now }
{
    numbers.get(name).copied()
}

/// The first number of a name stays.
fn keep_first<'a>(
    numbers: &mut BTreeMap<&'a str, usize>,
    name: &'a str,
    number: usize,
) -> Result<usize, OutOfMemory>
    ensures first { IfOk result (λ first. Some first ≡ or_else (number_in numbers.old name.now) (Some number)) }
    ensures kept { OnOk result ((x : List ℕ) → number_in numbers.new x
        ≡ or_else (number_in numbers.old x) (cond (bytes_eq name.now x) (Some number) None)) }
{
    let first = number_in(numbers, name).unwrap_or(number);
    numbers.insert(name, first)?;
    Ok(first)
}

impl<'a> Keys<'a> {
    /// In one pass over the objects of a program.
    pub fn of(alloc: Global, objects: &'a [Object]) -> Result<Keys<'a>, OutOfMemory>
        ensures { IfOk result (λ keys. keys.objects.now ≡ objects.now) }
    {
        let mut numbers = BTreeMap::new(alloc);
        let mut of_objects = Vec::new(alloc);
        for (number, object) in objects.iter().enumerate() {
            of_objects.push(keep_first(&mut numbers, object.name.as_str(), number)?)?;
        }
        Ok(Keys {
            objects,
            numbers,
            of_objects,
        })
    }

    /// The key of a name; none where no object has it.
    pub fn key(&self, name: &str) -> Option<usize>
        ensures { result ≡ key_of self.now.objects.now name.now }
    {
        number_in(&self.numbers, name)
    }

    fn read_key(&self, number: u32) -> Option<usize>
        ensures { result ≡ slice_get self.now.of_objects.items number }
    {
        self.of_objects.get(number as usize).copied()
    }

    /// The key of an object's name.
    pub fn key_of_object(&self, number: u32) -> Option<usize>
        ensures { result ≡ key_at self.now.objects.now (slice_get self.now.objects.now number) }
    {
        self.read_key(number)
    }
}
