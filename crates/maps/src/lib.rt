// Panel maps (docs/RULES.md, sections 5 and 9): does a key stand twice.
#![tactic(auto)]

ghost use Rattle.std.specs.Prelude.{◌≡◌, true};
ghost use Rattle.basics.specs.Lists.{all_up_to};
ghost use Rattle.keys.specs.Keys.{last_key};
ghost use Rattle.maps.specs.Maps.{has_double};

// Some key stands twice. The loop runs to its end, since a map seldom has one. A key is its own mark among those seen, so that 0 needs no
// test.
pub fn has_double(map: &[u8; 144]) -> bool
    requires { all_up_to last_key map.now ≡ true }
    ensures { result ≡ has_double map.now }
{
    let mut seen = [0u8; keys::PLACES];
    let mut double = false;
    for key in map {
        let place = usize::from(*key);
        double |= seen[place] != 0;
        seen[place] = *key;
    }
    double
}
