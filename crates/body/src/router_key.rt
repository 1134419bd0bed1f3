// The body of a router key.
ghost use Rattle.std.specs.Prelude.{◌≡◌};
ghost use Rattle.body.specs.RouterKey.{good_router_key};

// Whether this is the body of a router key: 24 bytes, then 0 to 1,024 bytes of key info.
pub fn router_key_ok(body: &[u8]) -> bool
    ensures { result ≡ good_router_key body.now }
{
    if body.len() < 24 {
        return false;
    }
    body.len() - 24 <= 1024
}
