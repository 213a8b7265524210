// The key that a receipt names.

ghost use Rattle.std.specs.Prelude.{◌≡◌, find, option_map};
ghost use Rattle.relying_party.specs.Accepts.{is_service, service_key as key_of_service};

use crate::trust::{Service, Trust};
use hss_keys::Key60;
use receipts::Receipt;

fn is_named(service: &Service, receipt: &Receipt) -> bool
    ensures { result ≡ is_service receipt.now.name receipt.now.kid service.now }
{
    service.name().as_slice() == receipt.name.as_slice()
        && service.kid().as_slice() == receipt.kid.as_slice()
}

fn among_services(services: &[Service], receipt: &Receipt) -> Option<Key60>
    ensures { result ≡ option_map (λ s. s.key) (find (is_service receipt.now.name receipt.now.kid) services.now) }
{
    for service in services {
        if is_named(service, receipt) {
            return Some(*service.key());
        }
    }
    None
}

/// The key of the first service with the receipt's name and kid.
pub(crate) fn service_key(trust: &Trust, receipt: &Receipt) -> Option<Key60>
    ensures { result ≡ key_of_service trust.now receipt.now }
{
    among_services(trust.services.as_slice(), receipt)
}
